// A bit as it was heard, with the number of its symbol in the part; the first after the prior symbol is 0.
// That it is a bit stays a clause: as an invariant it would put a proof into each item of the lists in the specs, and a
// type over a slice of them would be cut anew for each word and each bit.
#[derive(Clone, Copy)]
pub struct AirBit {
    pub bit: u8,
    pub symbol: u16,
}

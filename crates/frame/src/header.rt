// What a header says: the rate of the PSDU, its bytes (9 to 264), the burst mark and the scrambler's seed. They are
// numbers, since one out of its range is a refusal that callers are told.
#[derive(Clone, Copy, PartialEq, Eq, Debug)]
pub struct Header {
    pub rate: u8,
    pub bytes: usize,
    pub burst: u8,
    pub seed: u8,
}

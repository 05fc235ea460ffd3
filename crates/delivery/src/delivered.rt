// What a hearing delivers, beside the PSDU at the front of the output. It is flat, and no header with a count, since
// callers read these fields; they are numbers, as in a frame.
#[derive(Clone, Copy, PartialEq, Eq, Debug)]
pub struct Delivered {
    pub rate: u8,
    pub burst: u8,
    pub seed: u8,
    // the bytes of the PSDU
    pub bytes: usize,
    // the spoilt bits in all words of header and payload
    pub spoilt: usize,
}

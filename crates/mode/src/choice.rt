// One of two kinds of carrier, so that a plan can hold unlike modes.
// The crate `either` has such a type, but it imports std's input, output and heap.
#[derive(Clone, Copy)]
pub enum Choice<A, B> {
    First(A),
    Second(B),
}

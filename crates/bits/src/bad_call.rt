// Why a direct call is turned away below the four calls of a post: a wrong count, a number out of its range, a number
// that is no bit, or one that is no symbol.
#[derive(Clone, Copy, PartialEq, Eq, Debug)]
pub struct BadCall;

ghost use Rattle.std.specs.Prelude.{◌≡◌};
ghost use Rattle.block_code.specs.declared.fault.CorrectFault.{CorrectFault};

use bits::BadCall;

// Why a correction leaves the bits as they were.
#[derive(Clone, Copy, PartialEq, Eq, Debug)]
pub enum CorrectFault {
    // not as many bits as a word has, or a number that is no bit
    Call(BadCall),
    // every word differs from the bits in more places than the code's reach
    NoWordNear,
}

// By hand, since a derived `From` has no contract.
impl From<BadCall> for CorrectFault {
    ghost from_gives = { λ e r. r ≡ CorrectFault.Call e };

    fn from(e: BadCall) -> CorrectFault {
        CorrectFault::Call(e)
    }
}

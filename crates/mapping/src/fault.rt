ghost use Rattle.std.specs.Prelude.{◌≡◌};
ghost use Rattle.mapping.specs.declared.fault.ReadFault.{ReadFault};

use bits::BadCall;

// Why a step is not read; the bits stay as they were.
#[derive(Clone, Copy, PartialEq, Eq, Debug)]
pub enum ReadFault {
    // a number that is no symbol or no bit, or not as many places as a symbol has bits
    Call(BadCall),
    // no bits lead from the prior symbol to the next
    NoSuchStep,
}

// By hand, since a derived `From` has no contract.
impl From<BadCall> for ReadFault {
    ghost from_gives = { λ e r. r ≡ ReadFault.Call e };

    fn from(e: BadCall) -> ReadFault {
        ReadFault::Call(e)
    }
}

ghost use Rattle.std.specs.Prelude.{◌≡◌};
ghost use Rattle.frame.specs.declared.fault.ReadHeaderFault.{ReadHeaderFault};

use bits::BadCall;

// Why the bits of a header say no fields.
#[derive(Clone, Copy, PartialEq, Eq, Debug)]
pub enum FormFault {
    // the check bits differ
    Check,
    // a reserved bit is set: the lowest such
    Reserved(u8),
    // the rate is over 3, or the plan does not carry it
    Rate(u8),
}

// Why no header is read.
#[derive(Clone, Copy, PartialEq, Eq, Debug)]
pub enum ReadHeaderFault {
    // not as many bits as a header has, or a number that is no bit
    Call(BadCall),
    Form(FormFault),
}

// By hand, since a derived `From` has no contract, and `read` says which fault came through a `?`.
impl From<BadCall> for ReadHeaderFault {
    ghost from_gives = { λ e r. r ≡ ReadHeaderFault.Call e };

    fn from(e: BadCall) -> ReadHeaderFault {
        ReadHeaderFault::Call(e)
    }
}

impl From<FormFault> for ReadHeaderFault {
    ghost from_gives = { λ e r. r ≡ ReadHeaderFault.Form e };

    fn from(e: FormFault) -> ReadHeaderFault {
        ReadHeaderFault::Form(e)
    }
}

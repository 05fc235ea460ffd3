ghost use Rattle.std.specs.Prelude.{◌≡◌};
ghost use Rattle.mode.specs.declared.fault.HearFault.{HearFault};

use bits::BadCall;

// What is at fault in a part of a heard list, each with its place: an index of the list.
#[derive(Clone, Copy, PartialEq, Eq, Debug)]
pub enum PartFault {
    // a number that is no symbol of the mapping
    Symbol(usize),
    // a symbol to which no step leads from the one before it
    Step(usize),
    // no word is near; the place is the lowest index with a copy of one of its bits
    Word(usize),
}

// Why a part is not heard; the bits stay as they were.
#[derive(Clone, Copy, PartialEq, Eq, Debug)]
pub enum HearFault {
    Part(PartFault),
    // a count of bits that no carrier carries, or a list that ends before the part does
    Call(BadCall),
}

// By hand, as all `From` of faults here, since a derived `From` has no contract.
impl From<PartFault> for HearFault {
    ghost from_gives = { λ e r. r ≡ HearFault.Part e };

    fn from(e: PartFault) -> HearFault {
        HearFault::Part(e)
    }
}

impl From<BadCall> for HearFault {
    ghost from_gives = { λ e r. r ≡ HearFault.Call e };

    fn from(e: BadCall) -> HearFault {
        HearFault::Call(e)
    }
}

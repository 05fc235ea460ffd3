ghost use Rattle.std.specs.Prelude.{◌≡◌};
ghost use Rattle.delivery.specs.declared.fault.HeaderFault.{HeaderFault};
ghost use Rattle.delivery.specs.declared.fault.PayloadFault.{PayloadFault};
ghost use Rattle.delivery.specs.declared.fault.Fault.{Fault};

use frame::FormFault;
use mode::PartFault;

// What is at fault in the header of a heard list: its symbols or words, or what its bits say.
#[derive(Clone, Copy, PartialEq, Eq, Debug)]
pub enum HeaderFault {
    Part(PartFault),
    Form(FormFault),
}

// What is at fault in the payload of a heard list: the list's length, which should be this, or symbols or words.
#[derive(Clone, Copy, PartialEq, Eq, Debug)]
pub enum PayloadFault {
    Length(usize),
    Part(PartFault),
}

// Why a call is refused.
#[derive(Clone, Copy, PartialEq, Eq, Debug)]
pub enum Fault {
    // there is no such band
    Band,
    // the channel is over the last one
    Channel,
    // the burst mark is over 1
    Burst,
    // the rate is over 3, or the plan reserves it
    Rate,
    // the PSDU has under 9 or over 264 bytes
    Psdu,
    // the symbol buffer is too short; so many symbols are needed
    Buffer(usize),
    // the output has under 264 bytes
    Output,
    // the list, of this length, ends before the header does
    List(usize),
    Header(HeaderFault),
    Payload(PayloadFault),
}

// By hand, as all `From` of faults here, since a derived `From` has no contract.
impl From<PartFault> for HeaderFault {
    ghost from_gives = { λ e r. r ≡ HeaderFault.Part e };

    fn from(e: PartFault) -> HeaderFault {
        HeaderFault::Part(e)
    }
}

impl From<FormFault> for HeaderFault {
    ghost from_gives = { λ e r. r ≡ HeaderFault.Form e };

    fn from(e: FormFault) -> HeaderFault {
        HeaderFault::Form(e)
    }
}

impl From<PartFault> for PayloadFault {
    ghost from_gives = { λ e r. r ≡ PayloadFault.Part e };

    fn from(e: PartFault) -> PayloadFault {
        PayloadFault::Part(e)
    }
}

impl From<HeaderFault> for Fault {
    ghost from_gives = { λ e r. r ≡ Fault.Header e };

    fn from(e: HeaderFault) -> Fault {
        Fault::Header(e)
    }
}

impl From<PayloadFault> for Fault {
    ghost from_gives = { λ e r. r ≡ Fault.Payload e };

    fn from(e: PayloadFault) -> Fault {
        Fault::Payload(e)
    }
}

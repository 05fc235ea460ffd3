// What a post's calls answer, and the delivery theorem: nothing is lost and nothing is invented.
#![tactic(auto)]

pub mod delivered;
pub mod fault;

ghost use Rattle.std.specs.Prelude.{◌≡◌};
ghost use Rattle.delivery.specs.Refusals.{number, layer, place};

pub use delivered::Delivered;
pub use fault::{Fault, HeaderFault, PayloadFault};

impl Fault {
    pub fn number(&self) -> u16
        ensures { result ≡ number self.now }
    {
        match self {
            Fault::Band => 1,
            Fault::Channel => 2,
            Fault::Burst => 3,
            Fault::Rate => 4,
            Fault::Psdu => 5,
            Fault::Buffer(_) => 6,
            Fault::Output => 7,
            Fault::List(_) => 8,
            Fault::Header(HeaderFault::Part(part)) => part.number(),
            Fault::Header(HeaderFault::Form(form)) => form.number(),
            Fault::Payload(PayloadFault::Length(_)) => 15,
            Fault::Payload(PayloadFault::Part(part)) => part.number(),
        }
    }

    // 1 the call itself, 2 the header, 3 the payload
    pub fn layer(&self) -> u16
        ensures { result ≡ layer self.now }
    {
        match self {
            Fault::Header(_) => 2,
            Fault::Payload(_) => 3,
            _ => 1,
        }
    }

    pub fn place(&self) -> usize
        ensures { result ≡ place self.now }
    {
        match self {
            Fault::Buffer(needed) => *needed,
            Fault::Output => 264,
            Fault::List(length) => *length,
            Fault::Header(HeaderFault::Part(part)) => part.place(),
            Fault::Header(HeaderFault::Form(form)) => usize::from(form.place()),
            Fault::Payload(PayloadFault::Length(needed)) => *needed,
            Fault::Payload(PayloadFault::Part(part)) => part.place(),
            _ => 0,
        }
    }
}

// Modes: a block code, a count of copies and a mapping, which carry bits as symbols.
#![tactic(auto)]

mod air_bit;
pub mod carrier;
pub mod chain;
pub mod choice;
mod coder;
pub mod copies;
mod decoder;
pub mod fault;
pub mod interleaver;
pub mod laws;
mod message;
pub mod roomy;
pub mod sharing;

ghost use Rattle.std.specs.Prelude.{◌≡◌};
ghost use Rattle.mode.specs.Examples.{Examples};
ghost use Rattle.mode.specs.Faults.{number, place, hear_number, hear_place};

pub use carrier::Carrier;
pub use chain::Chain;
pub use choice::Choice;
pub use copies::Copies;
pub use fault::{HearFault, PartFault};
pub use interleaver::{deinterleave, interleave};
pub use laws::mode_laws;
pub use message::MAX_BITS;
pub use roomy::RoomyCode;
pub use sharing::share;

impl PartFault {
    pub fn number(&self) -> u16
        ensures { result ≡ number self.now }
    {
        match self {
            PartFault::Symbol(_) => 9,
            PartFault::Step(_) => 10,
            PartFault::Word(_) => 11,
        }
    }

    // The index of the list at which the fault stands.
    pub fn place(&self) -> usize
        ensures { result ≡ place self.now }
    {
        match self {
            PartFault::Symbol(i) | PartFault::Step(i) | PartFault::Word(i) => *i,
        }
    }
}

impl HearFault {
    pub fn number(&self) -> u16
        ensures { result ≡ hear_number self.now }
    {
        match self {
            HearFault::Part(f) => f.number(),
            HearFault::Call(e) => e.number(),
        }
    }

    pub fn place(&self) -> usize
        ensures { result ≡ hear_place self.now }
    {
        match self {
            HearFault::Part(f) => f.place(),
            HearFault::Call(e) => usize::from(e.place()),
        }
    }
}

// How many worked examples are stated, and that they hold by the rules.
pub fn worked_examples() -> usize
    ensures { (result ≡ 6) × Examples }
{
    6
}

#[cfg(test)]
mod tests;

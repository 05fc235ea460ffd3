ghost use Rattle.std.specs.Prelude.{◌≡◌, ◌≤◌};
ghost use Rattle.mapping.specs.Answers.{Steps};
ghost use Rattle.mode.specs.Modes.{Mode, Lawful};
ghost use Rattle.mode.specs.Answers.{Counts, Sends, Hears};
ghost use Rattle.mode.specs.declared.choice.Choice.TheVariants.{First, Second};
ghost use Rattle.std.proofs.Common.{rules};

use crate::choice::Choice;
use crate::fault::HearFault;
use bits::BadCall;

// What carries 2 to 2,112 bits as symbols. Its ghost member is the mode as a value of the specs.
pub trait Carrier: Copy {
    ghost mode: { Self → Mode };

    // The symbol to which the mapping's bits lead from the prior symbol.
    fn step(&self, prior: u8, bits: &[u8]) -> Result<u8, BadCall>
        ensures { Steps (mode self.now).map prior bits.now result };

    // How many symbols n bits take.
    fn symbol_count(&self, n: usize) -> Result<usize, BadCall>
        ensures { Counts (mode self.now) n result };

    // Writes the symbols of the bits, from the prior symbol on, to the front of the buffer, and answers their count.
    fn send(&self, prior: u8, bits: &[u8], symbols: &mut [u8]) -> Result<usize, BadCall>
        ensures { Sends (mode self.now) prior bits.now symbols.old symbols.new result };

    // Hears as many bits as there are places, from the symbols of the list after index `at`, and answers how many bits
    // of their words are spoilt.
    fn hear(&self, list: &[u8], at: usize, bits: &mut [u8]) -> Result<usize, HearFault>
        ensures { Hears (mode self.now) list.now at bits.old bits.new result };

    ghost lawful: { (c : Self) → Lawful (mode c) };
}

impl<A: Carrier, B: Carrier> Carrier for Choice<A, B> {
    ghost mode = { λ s. elim s [ First a ↦ A.Carrier.mode a | Second b ↦ B.Carrier.mode b ] };

    ghost lawful = { Prim.search rules };

    fn step(&self, prior: u8, bits: &[u8]) -> Result<u8, BadCall> {
        match self {
            Choice::First(a) => a.step(prior, bits),
            Choice::Second(b) => b.step(prior, bits),
        }
    }

    fn symbol_count(&self, n: usize) -> Result<usize, BadCall> {
        match self {
            Choice::First(a) => a.symbol_count(n),
            Choice::Second(b) => b.symbol_count(n),
        }
    }

    fn send(&self, prior: u8, bits: &[u8], symbols: &mut [u8]) -> Result<usize, BadCall> {
        match self {
            Choice::First(a) => a.send(prior, bits, symbols),
            Choice::Second(b) => b.send(prior, bits, symbols),
        }
    }

    fn hear(&self, list: &[u8], at: usize, bits: &mut [u8]) -> Result<usize, HearFault> {
        match self {
            Choice::First(a) => a.hear(list, at, bits),
            Choice::Second(b) => b.hear(list, at, bits),
        }
    }
}

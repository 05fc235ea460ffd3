// Mappings of bits to symbols.
#![tactic(auto)]

pub mod fault;
mod gmsk;
mod phase;
#[cfg(test)]
mod tests;

ghost use Rattle.std.specs.Prelude.{◌≡◌, [], ◌∷◌, Ok};
ghost use Rattle.mapping.specs.Examples.{Examples};
ghost use Rattle.mapping.specs.Maps.{Map, Lawful};
ghost use Rattle.mapping.specs.Answers.{Steps, Reads};
ghost use Rattle.mapping.specs.Laws.{LawfulIsDefined, ReadsBack};

use bits::BadCall;
use fault::ReadFault;
pub use gmsk::Gmsk;
pub use phase::{D8psk, Dbpsk, Dqpsk, PhaseSteps};

// A mapping. Its ghost member is the mapping as a value of the specs.
pub trait Mapping: Copy {
    // the bits in a symbol, 1 to 3
    const W: usize;
    // the count of symbol numbers, 2 to 256
    const Q: usize;

    ghost map: { Map };

    // W, for generic code
    fn width(&self) -> usize
        ensures { result ≡ map.w };

    // Q, for generic code
    fn order(&self) -> usize
        ensures { result ≡ map.q };

    // The symbol to which the bits lead from the prior symbol.
    fn step(&self, prior: u8, bits: &[u8]) -> Result<u8, BadCall>
        ensures { Steps map prior bits.now result };

    // Writes the bits that lead from the prior symbol to the next.
    fn read(&self, prior: u8, next: u8, bits: &mut [u8]) -> Result<(), ReadFault>
        ensures { Reads map prior next bits.old bits.new result };

    ghost lawful: { Lawful map };
}

// Steps with the bits, and reads the step: the places hold the bits again.
pub fn read_back<M: Mapping>(
    mapping: &M,
    prior: u8,
    bits: &[u8],
    places: &mut [u8],
) -> Result<(), ReadFault>
    ensures back { ReadsBack M.Mapping.map prior bits.now places.old places.new result }
    ensures defined { LawfulIsDefined }
{
    let next = mapping.step(prior, bits)?;
    mapping.read(prior, next, places)
}

// Steps through the worked examples, and answers the symbols that they lead to.
pub fn worked_examples() -> Result<[u8; 4], BadCall>
    ensures examples { Examples }
    ensures symbols { result ≡ Ok (8 ∷ 4 ∷ 2 ∷ 11 ∷ []) }
{
    let first = Dbpsk.step(4, &[0])?;
    let second = Dbpsk.step(first, &[1])?;
    let third = Dqpsk.step(4, &[1, 0])?;
    let fourth = D8psk.step(third, &[1, 1, 0])?;
    Ok([first, second, third, fourth])
}

// Mappings of bits to steps of the phase. Phases are numbered 0 to 15, in steps of π/8, and a step is added modulo 16.
ghost use Rattle.std.specs.Prelude.{◌≡◌, ◌<◌, ℕ, List, length, MatchOption};
ghost use Rattle.std.specs.List.{AllByRecursion};
ghost use Rattle.mapping.specs.Mappings.{phases, dbpsk_steps, dqpsk_steps, d8psk_steps};
ghost use Rattle.mapping.specs.Tables.{Table, Leads, NoneLeads};
ghost use Rattle.mapping.specs.TablesLemmas.{lawful};
ghost use Rattle.mapping.specs.Lawful.{dbpsk_table, dqpsk_table, d8psk_table};

use super::Mapping;
use super::fault::ReadFault;
use bits::{BadCall, number_of, put_bits};

// How many phases there are.
const PHASES: u8 = 16;

// The place in the table of the step that leads from the prior phase to the next.
fn find_step(steps: &[u8], prior: u8, next: u8) -> Option<usize>
    requires phase { prior < 16 }
    requires steps { AllByRecursion (λ s. s < 16) steps.now }
    ensures { MatchOption result (NoneLeads steps.now prior next (length steps.now)) (λ i. (i < length steps.now) × Leads steps.now prior next i) }
{
    steps
        .iter()
        .position(|step| (prior + *step) % PHASES == next)
}

// A mapping by a table of phase steps.
pub trait PhaseSteps: Copy {
    // the bits in a symbol, 1 to 3
    const BITS: usize;

    ghost BITS: { ℕ };

    ghost steps: { List ℕ };

    // the step of each number that the bits write
    fn steps() -> &'static [u8]
        ensures { result.now ≡ steps };

    ghost table: { Table BITS steps };
}

// π/2-DBPSK.
#[derive(Clone, Copy)]
pub struct Dbpsk;

impl PhaseSteps for Dbpsk {
    const BITS: usize = 1;

    ghost BITS = { 1 };

    ghost steps = { dbpsk_steps };

    ghost table = { dbpsk_table };

    fn steps() -> &'static [u8] {
        &[4, 12]
    }
}

// π/4-DQPSK.
#[derive(Clone, Copy)]
pub struct Dqpsk;

impl PhaseSteps for Dqpsk {
    const BITS: usize = 2;

    ghost BITS = { 2 };

    ghost steps = { dqpsk_steps };

    ghost table = { dqpsk_table };

    fn steps() -> &'static [u8] {
        &[2, 6, 14, 10]
    }
}

// π/8-D8PSK.
#[derive(Clone, Copy)]
pub struct D8psk;

impl PhaseSteps for D8psk {
    const BITS: usize = 3;

    ghost BITS = { 3 };

    ghost steps = { d8psk_steps };

    ghost table = { d8psk_table };

    fn steps() -> &'static [u8] {
        &[1, 3, 7, 5, 15, 13, 9, 11]
    }
}

impl<T: PhaseSteps> Mapping for T {
    const W: usize = T::BITS;

    // `From` is no constant function
    const Q: usize = PHASES as usize;

    ghost map = { phases T.BITS T.steps };

    ghost lawful = { lawful T.BITS T.steps T.table };

    fn width(&self) -> usize {
        T::BITS
    }

    fn order(&self) -> usize {
        usize::from(PHASES)
    }

    fn step(&self, prior: u8, bits: &[u8]) -> Result<u8, BadCall> {
        if prior >= PHASES || bits.len() != T::BITS {
            return Err(BadCall);
        }
        let number = number_of(bits)?;
        // at most three bits: the cast loses nothing
        Ok((prior + T::steps()[number as usize]) % PHASES)
    }

    fn read(&self, prior: u8, next: u8, bits: &mut [u8]) -> Result<(), ReadFault> {
        if prior >= PHASES || next >= PHASES || bits.len() != T::BITS {
            return Err(BadCall.into());
        }
        let number = find_step(T::steps(), prior, next).ok_or(ReadFault::NoSuchStep)?;
        // one of at most eight steps
        put_bits(number as u64, bits);
        Ok(())
    }
}

// The modes of the bands, each with so many copies.
ghost use Rattle.std.specs.Prelude.{◌≡◌};
ghost use Rattle.block_code.specs.Bch.{bch63};
ghost use Rattle.block_code.specs.Plain.{plain};
ghost use Rattle.mapping.specs.Mappings.{dbpsk, dqpsk, d8psk, gmsk};
ghost use Rattle.mode.specs.Chains.{chained};

use block_code::{Bch63, Plain};
use mapping::{D8psk, Dbpsk, Dqpsk, Gmsk};
use mode::chain::Chain;
use mode::choice::Choice;
use mode::{Carrier, Copies};

// Phases, over the code 63/51.
type PhaseMode = Choice<Chain<Bch63, Dbpsk>, Choice<Chain<Bch63, Dqpsk>, Chain<Bch63, D8psk>>>;

// GMSK, over the code 63/51 or the plain code.
type GmskMode = Choice<Chain<Bch63, Gmsk>, Chain<Plain, Gmsk>>;

// What carries the headers and payloads of the bands.
pub type BandMode = Choice<PhaseMode, GmskMode>;

// A function for each mapping and code, since each names its own place in the choice.
pub(crate) fn dbpsk(copies: Copies) -> BandMode
    ensures { ⟦<BandMode as Carrier>⟧.mode result ≡ chained bch63 copies dbpsk }
{
    Choice::First(Choice::First(Chain {
        code: Bch63,
        copies,
        mapping: Dbpsk,
    }))
}

pub(crate) fn dqpsk(copies: Copies) -> BandMode
    ensures { ⟦<BandMode as Carrier>⟧.mode result ≡ chained bch63 copies dqpsk }
{
    Choice::First(Choice::Second(Choice::First(Chain {
        code: Bch63,
        copies,
        mapping: Dqpsk,
    })))
}

pub(crate) fn d8psk(copies: Copies) -> BandMode
    ensures { ⟦<BandMode as Carrier>⟧.mode result ≡ chained bch63 copies d8psk }
{
    Choice::First(Choice::Second(Choice::Second(Chain {
        code: Bch63,
        copies,
        mapping: D8psk,
    })))
}

pub(crate) fn gmsk(copies: Copies) -> BandMode
    ensures { ⟦<BandMode as Carrier>⟧.mode result ≡ chained bch63 copies gmsk }
{
    Choice::Second(Choice::First(Chain {
        code: Bch63,
        copies,
        mapping: Gmsk,
    }))
}

pub(crate) fn plain_gmsk(copies: Copies) -> BandMode
    ensures { ⟦<BandMode as Carrier>⟧.mode result ≡ chained plain copies gmsk }
{
    Choice::Second(Choice::Second(Chain {
        code: Plain,
        copies,
        mapping: Gmsk,
    }))
}

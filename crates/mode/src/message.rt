ghost use Rattle.std.specs.Prelude.{◌≡◌, length, MatchResult};
ghost use Rattle.std.specs.List.{AllByRecursion};
ghost use Rattle.bits.specs.Strings.{Bit};
ghost use Rattle.mode.specs.Modes.{Carried};
ghost use Rattle.std.proofs.Props.{props};

use bits::{BadCall, are_bits};

// The most bits that are carried at a time. Buffers for them are fixed, since the library crates use no heap.
pub const MAX_BITS: usize = 2112;

// A count of bits that is carried at a time.
#[derive(Clone, Copy)]
pub(crate) struct BitCount {
    pub n: usize,
    pub ghost carried: { Carried n },
}

impl TryFrom<usize> for BitCount {
    type Error = BadCall;

    ghost try_from_gives = { λ n r. MatchResult r (λ c. c.n ≡ n) (λ _. Carried n → ⊥) };

    fn try_from(n: usize) -> Result<BitCount, BadCall> {
        if (2..=MAX_BITS).contains(&n) {
            Ok(BitCount { n })
        } else {
            Err(BadCall)
        }
    }
}

// Bits that are carried together.
#[derive(Clone, Copy)]
pub(crate) struct Message<'a> {
    pub bits: &'a [u8],
    pub ghost carried: { Carried (length bits.now) },
    pub ghost valid: { AllByRecursion Bit bits.now } by { Prim.hlevel props },
}

impl<'a> TryFrom<&'a [u8]> for Message<'a> {
    type Error = BadCall;

    ghost try_from_gives = { λ bits r. MatchResult r (λ m. m.bits.now ≡ bits.now) (λ _. Carried (length bits.now) → AllByRecursion Bit bits.now → ⊥) };

    fn try_from(bits: &'a [u8]) -> Result<Message<'a>, BadCall> {
        BitCount::try_from(bits.len())?;
        if are_bits(bits) {
            Ok(Message { bits })
        } else {
            Err(BadCall)
        }
    }
}

impl Message<'_> {
    pub fn count(&self) -> BitCount
        ensures { result.n ≡ length self.now.bits.now }
    {
        BitCount { n: self.bits.len() }
    }
}

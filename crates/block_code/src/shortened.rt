ghost use Rattle.std.specs.Prelude.{◌≡◌, ◌+◌, ◌-◌, ◌<◌, ◌≤◌, ◌++◌, length, replicate, Decides, MatchResult};
ghost use Rattle.block_code.specs.Codes.{Code, shortened};
ghost use Rattle.block_code.specs.Shortening.{unsent_in};
ghost use Rattle.std.proofs.Common.{arith};
ghost use Rattle.block_code.specs.ShorteningLemmas.{shortened_lawful};

use super::code::{BlockCode, expect_string};
use super::fault::CorrectFault;
use bits::BadCall;

// A block code whose messages begin with zeros that are never sent. It is held with any number of them, and the code
// that it is has at least one message bit left.
#[derive(Clone, Copy)]
pub struct Shortened<C> {
    code: C,
    unsent: usize,
}

impl<C: BlockCode> Shortened<C> {
    // The code shortened by so many bits, fewer than a message has.
    pub fn new(code: C, unsent: usize) -> Result<Shortened<C>, BadCall>
        ensures { MatchResult result (λ s. (unsent < (C.BlockCode.code code).k) × (s ≡ record { code = code; unsent = unsent })) (λ _. (C.BlockCode.code code).k ≤ unsent) }
    {
        if unsent >= code.message_bits() {
            return Err(BadCall);
        }
        Ok(Shortened { code, unsent })
    }

    // How many bits of a message are never sent.
    pub fn unsent(&self) -> usize
        ensures { result ≡ unsent_in (C.BlockCode.code self.now.code) self.now.unsent }
    {
        self.unsent.min(self.code.message_bits() - 1)
    }
}

impl<C: BlockCode> BlockCode for Shortened<C> {
    ghost code = { λ s. shortened (C.BlockCode.code s.code) (unsent_in (C.BlockCode.code s.code) s.unsent) };

    ghost lawful = { λ c.
        let code = C.BlockCode.code c.code in
        let L = C.BlockCode.lawful c.code in
        shortened_lawful code L (unsent_in code c.unsent) (omega arith) };

    fn message_bits(&self) -> usize {
        self.code.message_bits() - self.unsent()
    }

    fn parity_bits(&self) -> usize {
        self.code.parity_bits()
    }

    fn reach(&self) -> usize {
        self.code.reach()
    }

    fn encode(&self, message: &[u8], parity: &mut [u8]) -> Result<(), BadCall> {
        let k = self.code.message_bits();
        let s = self.unsent();
        expect_string(message, k - s)?;
        let full = after_zeros(s, message);
        self.code.encode(&full[0..k], parity)
    }

    // Corrects in the full code with the zeros in front. A word with a one among them is no word of this code.
    fn correct(&self, bits: &mut [u8]) -> Result<usize, CorrectFault> {
        let n = self.code.message_bits() + self.code.parity_bits();
        let s = self.unsent();
        expect_string(bits, n - s)?;
        let mut full = after_zeros(s, bits);
        let count = self.code.correct(&mut full[0..n])?;
        if !are_zeros(&full[0..s]) {
            return Err(CorrectFault::NoWordNear);
        }
        bits.copy_from_slice(&full[s..n]);
        Ok(count)
    }
}

// The bits behind so many zeros, at the front of 63 places.
fn after_zeros(zeros: usize, bits: &[u8]) -> [u8; 63]
    requires { zeros + length bits.now ≤ 63 }
    ensures { result ≡ (replicate zeros 0 ++ bits.now) ++ replicate (63 - (zeros + length bits.now)) 0 }
{
    // there is no heap: room for the longest word
    let mut full = [0u8; 63];
    full[zeros..zeros + bits.len()].copy_from_slice(bits);
    full
}

// Whether every number of the slice is 0.
fn are_zeros(xs: &[u8]) -> bool
    ensures { Decides result (xs.now ≡ replicate (length xs.now) 0) }
{
    xs.iter().all(|x| *x == 0)
}

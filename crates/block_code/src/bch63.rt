ghost use Rattle.std.specs.Prelude.{◌≡◌, ℕ, ◌<◌, MatchOption};
ghost use Rattle.std.specs.List.{AllByRecursion};
ghost use Rattle.bits.specs.Strings.{Bit, Bits};
ghost use Rattle.block_code.specs.Bch.{bch63 as the_code, divided, remainder as remainder_of, power, cubed, first, third, Fits1, Fits2, Divides, Sums, Vanish, Only};
ghost use Rattle.block_code.specs.Codes.{MinimumDistance};
ghost use Rattle.std.proofs.Common.{arith};
ghost use Rattle.block_code.specs.Words.{length-parity};
ghost use Rattle.block_code.specs.Distance.{law, bits_parity};

use super::code::{BlockCode, expect_string};
use super::fault::CorrectFault;
use bits::{BadCall, put_bits};

// The powers of D reduced by 1 + D + D^6, from D^0 to D^62.
const POWERS: [u8; 63] = [
    1, 2, 4, 8, 16, 32, 3, 6, 12, 24, 48, 35, 5, 10, 20, 40, 19, 38, 15, 30, 60, 59, 53, 41, 17,
    34, 7, 14, 28, 56, 51, 37, 9, 18, 36, 11, 22, 44, 27, 54, 47, 29, 58, 55, 45, 25, 50, 39, 13,
    26, 52, 43, 21, 42, 23, 46, 31, 62, 63, 61, 57, 49, 33,
];

// The BCH code with 51 message bits, 12 parity bits and reach 2. Its generator is
// 1 + D^3 + D^4 + D^5 + D^8 + D^10 + D^12; the first bit of a word stands for D^62, the last for D^0.
#[derive(Clone, Copy)]
pub struct Bch63;

impl Bch63 {
    // The generator as a number: bit i is the coefficient of D^i. The parity of a message is the remainder by it.
    pub fn generator(&self) -> u16
        ensures { (result ≡ 5433) × Divides result }
    {
        0b1_0101_0011_1001
    }

    // The smallest number of places in which two words differ.
    pub fn minimum_distance(&self) -> usize
        ensures { MinimumDistance the_code result }
    {
        2 * self.reach() + 1
    }

    // The two sums over the set powers of 63 bits. Both are zero exactly of a word.
    #[tactic(auto, using(crate::proofs::Flips::vanish, crate::proofs::Flips::only))]
    pub fn syndromes(&self, bits: &[u8]) -> Result<(u8, u8), BadCall>
        ensures sums { Sums bits.now result }
        ensures vanish { Vanish }
        ensures only { Only }
    {
        expect_string(bits, 63)?;
        Ok(sums(bits))
    }
}

impl BlockCode for Bch63 {
    ghost code = { λ _. the_code };

    ghost lawful = { λ c.
        record {
          some = omega arith;
          few = omega arith;
          short = omega arith;
          checks = λ m M. record { size = length-parity m; bits = bits_parity m };
          apart = law;
        } };

    fn message_bits(&self) -> usize {
        51
    }

    fn parity_bits(&self) -> usize {
        12
    }

    fn reach(&self) -> usize {
        2
    }

    fn encode(&self, message: &[u8], parity: &mut [u8]) -> Result<(), BadCall> {
        expect_string(message, 51)?;
        if parity.len() != 12 {
            return Err(BadCall);
        }
        put_bits(u64::from(remainder(message)), parity);
        Ok(())
    }

    fn correct(&self, bits: &mut [u8]) -> Result<usize, CorrectFault> {
        let (s, t) = self.syndromes(bits)?;
        if s == 0 && t == 0 {
            return Ok(0);
        }
        if let Some(i) = single(s, t) {
            bits[62 - i] ^= 1;
            return Ok(1);
        }
        if let Some((i, j)) = double(s, t) {
            bits[62 - i] ^= 1;
            bits[62 - j] ^= 1;
            return Ok(2);
        }
        Err(CorrectFault::NoWordNear)
    }
}

// The remainder with one more bit of the message.
fn divide_in(r: u16, bit: u8) -> u16
    ensures { result ≡ divided r bit }
{
    let top = (r >> 11) & 1 ^ u16::from(bit);
    let up = (r << 1) & 0xfff;
    if top != 0 { up ^ 0b0101_0011_1001 } else { up }
}

// The remainder of D^12 times the message by the generator.
fn remainder(message: &[u8]) -> u16
    ensures { result ≡ remainder_of 0 message.now }
{
    message.iter().fold(0, |r, bit| divide_in(r, *bit))
}

// D^i, reduced.
fn power_of(i: usize) -> u8
    requires { i < 63 }
    ensures { result ≡ power i }
{
    POWERS[i]
}

// D^3i, reduced.
fn cube_of(i: usize) -> u8
    requires { i < 63 }
    ensures { result ≡ cubed i }
{
    power_of(3 * i % 63)
}

// The two sums over the set powers of 63 bits.
fn sums(bits: &[u8]) -> (u8, u8)
    requires { Bits 63 bits.now }
    ensures { (result.0 ≡ first bits.now) × (result.1 ≡ third bits.now) }
{
    let mut s = 0;
    let mut t = 0;
    for (i, b) in bits.iter().rev().enumerate() {
        if *b != 0 {
            s ^= power_of(i);
            t ^= cube_of(i);
        }
    }
    (s, t)
}

// The power whose sums are these.
fn single(s: u8, t: u8) -> Option<usize>
    ensures { MatchOption result ((k : ℕ) → k < 63 → Fits1 s t k → ⊥) (λ i. (i < 63) × Fits1 s t i) }
{
    (0..63).find(|i| power_of(*i) == s && cube_of(*i) == t)
}

// The two powers whose sums are these, the higher first.
fn double(s: u8, t: u8) -> Option<(usize, usize)>
    ensures { MatchOption result ((k l : ℕ) → k < 63 → l < k → Fits2 s t k l → ⊥) (λ p. (p.0 < 63) × (p.1 < p.0) × Fits2 s t p.0 p.1) }
{
    // a `for`, since the chain with `find_map` found no proof
    for i in 0..63 {
        let (p, c) = (power_of(i), cube_of(i));
        if let Some(j) = (0..i).find(|j| p ^ power_of(*j) == s && c ^ cube_of(*j) == t) {
            return Some((i, j));
        }
    }
    None
}

// The scrambler of a PSDU.
ghost use Rattle.std.specs.Prelude.{◌≡◌, ℕ, ◌+◌, ◌*◌, ◌<◌, Decides, length};
ghost use Rattle.frame.specs.Registers.{given, mask};
ghost use Rattle.frame.specs.Scrambler.{keystream};
ghost use Rattle.frame.specs.Answers.{Scrambles, Unscrambles};

use crate::numbers::{number_of, put_low_bits};
use bits::{BadCall, are_bits};

// The registers of seeds 0 and 1 before x[0]: x[−1] is the lowest bit, x[−14] the highest.
const STARTS: [u16; 2] = [0b10_1100_1111_0100, 0b11_1100_1000_0000];

// The sequence x, of which the last fourteen values are kept.
#[derive(Drop)]
struct Keystream {
    register: u16,
}

impl Keystream {
    fn new(seed: u8) -> Keystream
        requires { seed < 2 }
        ensures { (k : ℕ) → given result.register k ≡ keystream seed k }
    {
        Keystream {
            register: STARTS[usize::from(seed)],
        }
    }

    // The next value, and on to the one after it.
    fn next_bit(&mut self) -> u8
        ensures bit { result ≡ given self.old.register 0 }
        ensures rest { (k : ℕ) → given self.new.register k ≡ given self.old.register (k + 1) }
    {
        let past = self.register;
        let x = (past >> 1 ^ past >> 11 ^ past >> 12 ^ past >> 13) & 1;
        self.register = (past << 1 | x) & 0x3fff;
        // one bit
        x as u8
    }

    // The next eight values as a number, the first lowest.
    fn next_byte(&mut self) -> u8
        ensures byte { result ≡ mask (given self.old.register) 0 8 }
        ensures rest { (k : ℕ) → given self.new.register k ≡ given self.old.register (k + 8) }
    {
        // no fold: its closure would change `self`, of which a proof then learns nothing
        let mut byte = 0;
        for k in 0..8u8 {
            byte |= self.next_bit() << k;
        }
        byte
    }
}

// Whether the seed is 0 or 1, and there are eight bits for each byte.
fn fit(seed: u8, bits: &[u8], psdu: &[u8]) -> bool
    ensures { Decides result ((seed < 2) × (length bits.now ≡ 8 * length psdu.now)) }
{
    seed < 2 && bits.len() % 8 == 0 && bits.len() / 8 == psdu.len()
}

// Writes the scrambled bits of the PSDU, eight for each byte.
pub fn scramble(seed: u8, psdu: &[u8], bits: &mut [u8]) -> Result<(), BadCall>
    ensures { Scrambles seed psdu.now bits.old bits.new result }
{
    if !fit(seed, bits, psdu) {
        return Err(BadCall);
    }
    let mut keystream = Keystream::new(seed);
    // by index: after a loop over `chunks_exact_mut` a proof knows nothing of the places
    for (i, byte) in psdu.iter().enumerate() {
        put_low_bits(*byte ^ keystream.next_byte(), &mut bits[8 * i..8 * i + 8]);
    }
    Ok(())
}

// Writes the PSDU of which these are the scrambled bits.
pub fn unscramble(seed: u8, bits: &[u8], psdu: &mut [u8]) -> Result<(), BadCall>
    ensures { Unscrambles seed bits.now psdu.old psdu.new result }
{
    if !fit(seed, bits, psdu) || !are_bits(bits) {
        return Err(BadCall);
    }
    let mut keystream = Keystream::new(seed);
    // by index: after a loop over `zip` with `iter_mut` a proof knows nothing of the bytes
    for (i, eight) in bits.chunks_exact(8).enumerate() {
        psdu[i] = number_of(eight) ^ keystream.next_byte();
    }
    Ok(())
}

#[cfg(test)]
mod tests {
    use super::*;
    use crate::numbers::unpacked;
    use std::test::Fail;

    #[test]
    fn scrambles_and_unscrambles(rt: HostRuntime) -> Result<(), Fail> {
        let known = [
            (0, [0, 0], 0b00011100_00111110),
            (1, [0, 0], 0b11100111_11110111),
            (0, [1, 128], 0b10011100_00111111),
            (1, [255, 53], 0b00011000_01011011),
        ];
        for (seed, psdu, numeral) in known {
            let mut bits = [7; 16];
            scramble(seed, &psdu, &mut bits)?;
            assert_eq!(rt; bits, unpacked::<16>(numeral));
            let mut back = [7; 2];
            unscramble(seed, &bits, &mut back)?;
            assert_eq!(rt; back, psdu);
        }
        scramble(1, &[], &mut [])?;
        unscramble(0, &[], &mut [])?;
        Ok(())
    }

    #[test]
    fn refuses_to_scramble(rt: HostRuntime) {
        for (seed, count) in [(2, 16), (0, 15), (0, 17)] {
            let mut bits = [7; 17];
            assert_eq!(rt; scramble(seed, &[1, 2], &mut bits[0..count]), Err(BadCall));
            assert_eq!(rt; bits, [7; 17]);
        }
    }

    #[test]
    fn refuses_to_unscramble(rt: HostRuntime) {
        for (seed, count, last) in [(2, 16, 1), (0, 15, 1), (0, 17, 1), (0, 16, 2)] {
            let mut bits = [0; 17];
            bits[15] = last;
            let mut psdu = [7; 2];
            assert_eq!(rt; unscramble(seed, &bits[0..count], &mut psdu), Err(BadCall));
            assert_eq!(rt; psdu, [7; 2]);
        }
    }
}

// The bits of the preambles. The numerals are bit strings, the first bit leftmost.
ghost use Rattle.std.specs.Prelude.{◌≡◌, ◌%◌, if◌then◌else◌, nat_eq};
ghost use Rattle.plan.specs.Bands.{first, second, preamble as preamble_from};

use bits::put_bits;

// The first 63 bits on even channels.
const FIRST: u64 = 0b010101100110111011010010011100010111100101000110000100000111111;

// The first 63 bits on odd channels.
const SECOND: u64 = 0b011010001000010110010101001001111000001101110011000111010111111;

// The 27 bits that follow either.
const EXTENSION: u64 = 0b010101010101101101101101101;

// The bits of the preamble on a channel.
#[tactic(auto, unfolding(crate::specs::Bands::preamble))]
pub(crate) fn preamble_bits(channel: u32) -> [u8; 90]
    ensures { result ≡ (if nat_eq (channel % 2) 0 then preamble_from first else preamble_from second) }
{
    let sequence = if channel % 2 == 0 { FIRST } else { SECOND };
    let mut bits = [0; 90];
    let (front, back) = bits.split_at_mut(63);
    put_bits(sequence, front);
    put_bits(EXTENSION, back);
    bits
}

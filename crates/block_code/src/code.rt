ghost use Rattle.std.specs.Prelude.{◌≡◌, MatchResult};
ghost use Rattle.bits.specs.Strings.{Bits};
ghost use Rattle.block_code.specs.Codes.{Code, Lawful};
ghost use Rattle.block_code.specs.Answers.{Encodes, Corrects};

use super::fault::CorrectFault;
use bits::{BadCall, is_string};

// A block code. Its ghost member is the code as a value of the specs; it may depend on the value, as that of a
// shortened code does.
pub trait BlockCode: Copy {
    ghost code: { Self → Code };

    fn message_bits(&self) -> usize
        ensures { result ≡ (code self.now).k };

    fn parity_bits(&self) -> usize
        ensures { result ≡ (code self.now).p };

    // How many wrong bits of a word are corrected.
    fn reach(&self) -> usize
        ensures { result ≡ (code self.now).t };

    // Writes the parity of a message.
    fn encode(&self, message: &[u8], parity: &mut [u8]) -> Result<(), BadCall>
        ensures { Encodes (code self.now) message.now parity.old parity.new result };

    // Turns bits into the word near them, and answers in how many places they differed from it.
    fn correct(&self, bits: &mut [u8]) -> Result<usize, CorrectFault>
        ensures { Corrects (code self.now) bits.old bits.new result };

    ghost lawful: { (c : Self) → Lawful (code c) };
}

// Refuses what is no string of n bits.
pub(crate) fn expect_string(xs: &[u8], n: usize) -> Result<(), BadCall>
    ensures { MatchResult result (λ _. Bits n xs.now) (λ _. Bits n xs.now → ⊥) }
{
    if is_string(xs, n) {
        Ok(())
    } else {
        Err(BadCall)
    }
}

ghost use Rattle.block_code.specs.Plain.{plain};
ghost use Rattle.block_code.specs.Unprotected;

use super::code::{BlockCode, expect_string};
use super::fault::CorrectFault;
use bits::BadCall;

// 51 message bits and no parity: every string of 51 bits is a word.
#[derive(Clone, Copy)]
pub struct Plain;

impl BlockCode for Plain {
    ghost code = { λ _. plain };

    ghost lawful = { λ c. Unprotected.lawful };

    fn message_bits(&self) -> usize {
        51
    }

    fn parity_bits(&self) -> usize {
        0
    }

    fn reach(&self) -> usize {
        0
    }

    fn encode(&self, message: &[u8], parity: &mut [u8]) -> Result<(), BadCall> {
        expect_string(message, 51)?;
        if !parity.is_empty() {
            return Err(BadCall);
        }
        Ok(())
    }

    fn correct(&self, bits: &mut [u8]) -> Result<usize, CorrectFault> {
        expect_string(bits, 51)?;
        Ok(0)
    }
}

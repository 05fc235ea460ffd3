ghost use Rattle.mapping.specs.Mappings.{gmsk};
ghost use Rattle.mapping.specs.Lawful.{gmsk_lawful};

use super::Mapping;
use super::fault::ReadFault;
use bits::{BadCall, is_string};

// GMSK: the next symbol is the bit, whatever the prior one is.
#[derive(Clone, Copy)]
pub struct Gmsk;

impl Mapping for Gmsk {
    const W: usize = 1;

    const Q: usize = 2;

    ghost map = { gmsk };

    ghost lawful = { gmsk_lawful };

    fn width(&self) -> usize {
        Self::W
    }

    fn order(&self) -> usize {
        Self::Q
    }

    fn step(&self, prior: u8, bits: &[u8]) -> Result<u8, BadCall> {
        if prior > 1 || !is_string(bits, Self::W) {
            return Err(BadCall);
        }
        Ok(bits[0])
    }

    fn read(&self, prior: u8, next: u8, bits: &mut [u8]) -> Result<(), ReadFault> {
        if prior > 1 || next > 1 || bits.len() != Self::W {
            return Err(BadCall.into());
        }
        bits[0] = next;
        Ok(())
    }
}

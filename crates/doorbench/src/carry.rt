use super::show::{Digits, Refusal};
use super::symbols::{Kind, bit};
use block_code::Bch63;
use mapping::{D8psk, Dbpsk, Dqpsk, Gmsk};
use mode::{Carrier, Chain, Choice, Copies, HearFault};
use std::alloc::Global;
use std::io;

// The most symbols that the bits of one line take.
const MOST: usize = 4_000;

// Phases and GMSK, over the code 63/51.
type AnyMode = Choice<
    Choice<Chain<Bch63, Dbpsk>, Chain<Bch63, Dqpsk>>,
    Choice<Chain<Bch63, D8psk>, Chain<Bch63, Gmsk>>,
>;

// A mode over the code 63/51.
#[derive(Clone, Copy)]
pub struct Mode {
    pub kind: Kind,
    pub copies: Copies,
}

impl Mode {
    fn over<M>(&self, mapping: M) -> Chain<Bch63, M> {
        Chain {
            code: Bch63,
            copies: self.copies,
            mapping,
        }
    }

    fn carrier(&self) -> AnyMode {
        match self.kind {
            Kind::Dbpsk => Choice::First(Choice::First(self.over(Dbpsk))),
            Kind::Dqpsk => Choice::First(Choice::Second(self.over(Dqpsk))),
            Kind::D8psk => Choice::Second(Choice::First(self.over(D8psk))),
            Kind::Gmsk => Choice::Second(Choice::Second(self.over(Gmsk))),
        }
    }

    // Carries bits after symbol 0: the list is that symbol and those of the bits.
    pub fn carry(
        &self,
        rt: &impl Print,
        heap: Global,
        bits: &[u8],
        list: &mut Vec<u8>,
    ) -> anyhow::Result<()> {
        let mut symbols = vec![in heap; 0u8; MOST]?;
        let count = match self.carrier().send(0, bits, &mut symbols) {
            Ok(count) => count,
            // The bench prints a refusal and goes on, so it does not leave by `?`.
            Err(bad) => return Ok(println!(rt; "{}", Refusal::from(bad))?),
        };
        let Some(sent) = symbols.get(..count) else {
            return Ok(());
        };
        list.clear();
        list.push(0)?;
        list.extend_from_slice(sent)?;
        println!(rt; "carried by {count} symbols after symbol 0")?;
        Ok(())
    }

    // Hears so many bits from the list.
    pub fn hear(&self, rt: &impl Print, heap: Global, list: &[u8], n: usize) -> anyhow::Result<()> {
        let mut bits = vec![in heap; 0u8; n.min(MOST)]?;
        match self.carrier().hear(list, 0, &mut bits) {
            Ok(spoilt) => println!(rt; "heard   {}, spoilt bits {spoilt}", Digits(&bits))?,
            Err(HearFault::Part(fault)) => {
                println!(rt;
                    "refused: number {}, place {}",
                    fault.number(),
                    fault.place()
                )?
            }
            Err(HearFault::Call(bad)) => println!(rt; "{}", Refusal::from(bad))?,
        }
        Ok(())
    }
}

// The bits that are written as digits.
pub fn bits_of(heap: Global, text: &str) -> anyhow::Result<Vec<u8>> {
    text.bytes()
        .map(|digit| -> anyhow::Result<u8> { Ok(bit(digit)?) })
        .try_collect(heap)
}

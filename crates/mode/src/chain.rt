// A mode: a code, a count of copies and a mapping.
ghost use Rattle.std.specs.Prelude.{◌≡◌, ◌*◌, length};
ghost use Rattle.mode.specs.Modes.{plain as plain_of, total as total_of, count as count_of, padded as padded_of, air as air_of};
ghost use Rattle.mode.specs.Parts.{There};
ghost use Rattle.mode.specs.Answers.{HearsPart};
ghost use Rattle.mode.specs.Chains.{copy_count, chained};
ghost use Rattle.std.proofs.Common.{rules};

use crate::air_bit::AirBit;
use crate::carrier::Carrier;
use crate::coder::{MAX_AIR, put_copies, put_words, step_through};
use crate::copies::Copies;
use crate::decoder::{hear_copies, hear_words};
use crate::fault::{HearFault, PartFault};
use crate::message::{BitCount, MAX_BITS, Message};
use crate::roomy::RoomyCode;
use crate::sharing::word_count;
use bits::BadCall;
use block_code::BlockCode;
use mapping::Mapping;

// The most coded bits: 132 words of 63 bits, and two zeros.
const MAX_CODED: usize = 8318;

#[derive(Clone, Copy)]
pub struct Chain<C, M> {
    pub code: C,
    pub copies: Copies,
    pub mapping: M,
}

impl<C: RoomyCode, M: Mapping> Chain<C, M> {
    // How many bits the words have that carry so many bits.
    fn word_bits(&self, count: BitCount) -> usize
        ensures { result ≡ plain_of (⟦<Self as Carrier>⟧.mode self.now) count.n }
    {
        count.n + word_count(self.code.message_bits(), count.n) * self.code.parity_bits()
    }

    // The same with the zeros that fill up the last symbol.
    fn coded_bits(&self, count: BitCount) -> usize
        ensures { result ≡ total_of (⟦<Self as Carrier>⟧.mode self.now) count.n }
    {
        let w = self.mapping.width();
        let plain = self.word_bits(count);
        plain + (w - plain % w) % w
    }

    // How many symbols so many bits take.
    fn symbols(&self, count: BitCount) -> usize
        ensures { result ≡ count_of (⟦<Self as Carrier>⟧.mode self.now) count.n }
    {
        self.copies.count() * self.coded_bits(count) / self.mapping.width()
    }

    // Writes the words that carry the bits, and the zeros after them.
    fn write_coded(&self, message: &Message, coded: &mut [u8])
        requires { length coded.old ≡ total_of (⟦<Self as Carrier>⟧.mode self.now) (length message.now.bits.now) }
        ensures { coded.new ≡ padded_of (⟦<Self as Carrier>⟧.mode self.now) message.now.bits.now }
    {
        let plain = self.word_bits(message.count());
        put_words(&self.code, message, &mut coded[0..plain]);
        coded[plain..].fill(0);
    }

    // Writes the copies of the coded bits in the order in which they go out.
    fn write_air(&self, message: &Message, air: &mut [u8])
        requires { length air.old ≡ copy_count self.now.copies * total_of (⟦<Self as Carrier>⟧.mode self.now) (length message.now.bits.now) }
        ensures { air.new ≡ air_of (⟦<Self as Carrier>⟧.mode self.now) message.now.bits.now }
    {
        let total = self.coded_bits(message.count());
        // There is no heap: the buffer has room for the most coded bits.
        let mut coded = [0u8; MAX_CODED];
        self.write_coded(message, &mut coded[0..total]);
        put_copies(self.copies, &coded[0..total], air);
    }

    // Hears the bits of a part, which has so many symbols after index `at` of the list, by way of their copies.
    fn hear_part(
        &self,
        list: &[u8],
        at: usize,
        count: usize,
        heard: &mut [AirBit],
        bits: &mut [u8],
    ) -> Result<usize, PartFault>
        requires there { There (⟦<Self as Carrier>⟧.mode self.now) list.now at (length bits.old) }
        requires symbols { count ≡ count_of (⟦<Self as Carrier>⟧.mode self.now) (length bits.old) }
        requires room { length heard.old ≡ count * M.Mapping.map.w }
        ensures { HearsPart (⟦<Self as Carrier>⟧.mode self.now) list.now at (length bits.old) bits.new result }
    {
        hear_copies(&self.mapping, self.copies, list, at, count, heard)?;
        hear_words(&self.code, self.copies, heard, bits).map_err(|lost| PartFault::Word(
            at + 1 + usize::from(lost.symbol),
        ))
    }
}

impl<C: RoomyCode, M: Mapping> Carrier for Chain<C, M> {
    ghost mode = { λ s. chained (C.code s.code) s.copies M.map };

    ghost lawful = { Prim.search rules };

    fn step(&self, prior: u8, bits: &[u8]) -> Result<u8, BadCall> {
        self.mapping.step(prior, bits)
    }

    fn symbol_count(&self, n: usize) -> Result<usize, BadCall> {
        Ok(self.symbols(BitCount::try_from(n)?))
    }

    fn send(&self, prior: u8, bits: &[u8], symbols: &mut [u8]) -> Result<usize, BadCall> {
        let message = Message::try_from(bits)?;
        let n = message.count();
        let count = self.symbols(n);
        if usize::from(prior) >= self.mapping.order() || symbols.len() < count {
            return Err(BadCall);
        }
        let places = self.copies.count() * self.coded_bits(n);
        // There is no heap: the buffer has room for the longest part.
        let mut air = [0u8; MAX_AIR];
        self.write_air(&message, &mut air[0..places]);
        step_through(
            &self.mapping,
            prior,
            &air[0..places],
            &mut symbols[0..count],
        );
        Ok(count)
    }

    fn hear(&self, list: &[u8], at: usize, bits: &mut [u8]) -> Result<usize, HearFault> {
        let n = bits.len();
        let count = self.symbol_count(n)?;
        if at >= list.len() || list.len() - at - 1 < count {
            return Err(BadCall.into());
        }
        let places = count * self.mapping.width();
        // There is no heap: each buffer has room for the longest part.
        let mut heard = [AirBit { bit: 0, symbol: 0 }; MAX_AIR];
        let mut message = [0u8; MAX_BITS];
        let spoilt = self.hear_part(list, at, count, &mut heard[0..places], &mut message[0..n])?;
        bits.copy_from_slice(&message[0..n]);
        Ok(spoilt)
    }
}

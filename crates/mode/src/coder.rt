// From bits to symbols, step by step.
ghost use Rattle.std.specs.Prelude.{◌≡◌, ◌+◌, ◌-◌, ◌*◌, ◌<◌, ◌≤◌, length, ◌≢◌};
ghost use Rattle.bits.specs.Strings.{Bits};
ghost use Rattle.block_code.specs.Codes.{shortened, word as word_of};
ghost use Rattle.mode.specs.Shares.{words as words_of, unsents};
ghost use Rattle.mode.specs.Orders.{interleaved};
ghost use Rattle.mode.specs.Copying.{spread as spread_of};
ghost use Rattle.mode.specs.Chains.{copy_count};
ghost use Rattle.mode.specs.Modes.{coded, stepped};

use crate::copies::Copies;
use crate::interleaver::interleave;
use crate::message::Message;
use crate::sharing::{share, word_count};
use block_code::{BlockCode, Shortened};
use mapping::Mapping;

// The most copies of coded bits that a part has: four of each of 8,318.
pub(crate) const MAX_AIR: usize = 33272;

// Writes the word of a message in the code shortened by the unsent bits.
fn put_word<C: BlockCode>(code: &C, unsent: usize, message: &[u8], output: &mut [u8])
    requires short { unsent < (C.BlockCode.code code.now).k }
    requires bits { Bits ((C.BlockCode.code code.now).k - unsent) message.now }
    requires room { length output.old ≡ length message.now + (C.BlockCode.code code.now).p }
    ensures { output.new ≡ word_of (shortened (C.BlockCode.code code.now) unsent) message.now }
{
    let m = message.len();
    output[0..m].copy_from_slice(message);
    let Ok(short) = Shortened::new(*code, unsent) else {
        unreachable()
    };
    let Ok(_) = short.encode(message, &mut output[m..]) else {
        unreachable()
    };
}

// Writes the words that carry the bits.
pub(crate) fn put_words<C: BlockCode>(code: &C, message: &Message, output: &mut [u8])
    requires { length output.old ≡ length message.now.bits.now + words_of (C.BlockCode.code code.now).k (length message.now.bits.now) * (C.BlockCode.code code.now).p }
    ensures { output.new ≡ coded (C.BlockCode.code code.now) (unsents (C.BlockCode.code code.now).k (length message.now.bits.now)) message.now.bits.now }
{
    let bits = message.bits;
    let k = code.message_bits();
    let p = code.parity_bits();
    // Places, since of what is written to parts by `split_at_mut` nothing is known after the loop.
    let mut from = 0;
    let mut at = 0;
    for i in 0..word_count(k, bits.len()) {
        let Ok((m, unsent)) = share(i, k, bits.len()) else {
            unreachable()
        };
        let to = from + m;
        let end = at + (m + p);
        put_word(code, unsent, &bits[from..to], &mut output[at..end]);
        from = to;
        at = end;
    }
}

// Writes each bit so many times in a row.
fn spread(copies: Copies, bits: &[u8], output: &mut [u8])
    requires { length output.old ≡ copy_count copies * length bits.now }
    ensures { output.new ≡ spread_of (copy_count copies) bits.now }
{
    let s = copies.count();
    for (i, bit) in bits.iter().enumerate() {
        // By index: of what is written to `chunks_exact_mut`, nothing is known after the loop.
        let at = s * i;
        output[at..at + s].fill(*bit);
    }
}

// Writes the copies of the coded bits in the order in which they go out.
pub(crate) fn put_copies(copies: Copies, coded: &[u8], air: &mut [u8])
    requires enough { length coded.now ≢ 1 }
    requires room { length air.old ≡ copy_count copies * length coded.now }
    requires few { length air.old ≤ 33272 }
    ensures { air.new ≡ interleaved (copy_count copies) (length coded.now) (spread_of (copy_count copies) coded.now) }
{
    let n = air.len();
    // There is no heap: the buffer has room for the longest part.
    let mut copied = [0u8; MAX_AIR];
    spread(copies, coded, &mut copied[0..n]);
    let Ok(_) = interleave(copies.count(), &copied[0..n], air) else {
        unreachable()
    };
}

// Steps through the bits from the symbol `prior` on.
pub(crate) fn step_through<M: Mapping>(mapping: &M, prior: u8, bits: &[u8], output: &mut [u8])
    requires known { prior < M.Mapping.map.q }
    requires bits { Bits (length output.old * M.Mapping.map.w) bits.now }
    ensures { output.new ≡ stepped M.Mapping.map (length output.old) prior bits.now }
{
    let w = mapping.width();
    let mut last = prior;
    // With the window of place i: after `zip` with `iter_mut` nothing is known of what is written.
    for (i, symbol) in output.iter_mut().enumerate() {
        let at = w * i;
        let Ok(next) = mapping.step(last, &bits[at..at + w]) else {
            unreachable()
        };
        *symbol = next;
        last = next;
    }
}

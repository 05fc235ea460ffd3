// From symbols to bits, step by step.
ghost use Rattle.std.specs.Prelude.{◌≡◌, ◌+◌, ◌-◌, ◌*◌, ◌/◌, ◌<◌, ◌≤◌, length};
ghost use Rattle.mode.specs.Orders.{Copied, deinterleaved};
ghost use Rattle.std.specs.List.{AllByRecursion};
ghost use Rattle.bits.specs.Strings.{Bit};
ghost use Rattle.mode.specs.Copying.{differing as differing_of, majority, decided, spoilt as spoilt_of};
ghost use Rattle.mode.specs.Heard.{labelled, bits_of, Lowest};
ghost use Rattle.mode.specs.Shares.{unsents};
ghost use Rattle.mode.specs.Chains.{copy_count};
ghost use Rattle.mode.specs.Modes.{Carried};
ghost use Rattle.mode.specs.Parts.{sized};
ghost use Rattle.mode.specs.Hearing.{HearsCopies, HearsWord, HearsMessage, HearsWords};
ghost use Rattle.mode.specs.Answers.{ReadsPart};
ghost use Rattle.block_code.specs.Codes.{shortened};

use crate::air_bit::AirBit;
use crate::coder::MAX_AIR;
use crate::copies::Copies;
use crate::fault::PartFault;
use crate::interleaver::deinterleave;
use crate::sharing::{share, word_count};
use block_code::{BlockCode, Shortened};
use mapping::Mapping;

// Reads the bits of so many symbols after index `at` of the list, or tells the first fault.
// List, index and count stay apart: in a struct they would only lengthen the clauses.
fn read_part<M: Mapping>(
    mapping: &M,
    list: &[u8],
    at: usize,
    count: usize,
    bits: &mut [u8],
) -> Result<(), PartFault>
    requires there { at + 1 + count ≤ length list.now }
    requires room { length bits.old ≡ count * M.Mapping.map.w }
    ensures { ReadsPart M.Mapping.map list.now at count bits.new result }
{
    let q = mapping.order();
    let w = mapping.width();
    let mut prior = list[at];
    if usize::from(prior) >= q {
        return Err(PartFault::Symbol(at));
    }
    for (k, symbol) in list[at + 1..at + 1 + count].iter().enumerate() {
        let i = at + 1 + k;
        if usize::from(*symbol) >= q {
            return Err(PartFault::Symbol(i));
        }
        // By index: of what is written to `chunks_exact_mut`, nothing is known after the loop.
        let from = w * k;
        mapping
            .read(prior, *symbol, &mut bits[from..from + w])
            .map_err(|_| PartFault::Step(i))?;
        prior = *symbol;
    }
    Ok(())
}

// Labels the bits from place `from` of a part on with their symbols. What `take_block` and `take_copies` ask too stays in
// clauses: it is about two slices and a width, which no value here holds together.
fn label(w: usize, from: usize, bits: &[u8], output: &mut [AirBit])
    requires some { 0 < w }
    requires few { from + length bits.now ≤ 65536 }
    requires room { length output.old ≡ length bits.now }
    ensures { output.new ≡ labelled w from bits.now }
{
    // With bit i: after `zip` with `iter_mut` nothing is known of what is written.
    for (i, place) in output.iter_mut().enumerate() {
        *place = AirBit {
            bit: bits[i],
            // below 65,536, by `few`
            symbol: ((from + i) / w) as u16,
        };
    }
}

// Labels the bits of a block, and puts the copies of each bit in a row.
fn take_block(copies: usize, w: usize, from: usize, bits: &[u8], output: &mut [AirBit])
    requires copied { Copied copies (length bits.now) }
    requires small { length bits.now ≤ 12 }
    requires some { 0 < w }
    requires few { from + length bits.now ≤ 65536 }
    requires room { length output.old ≡ length bits.now }
    ensures { output.new ≡ deinterleaved copies (length bits.now / copies) (labelled w from bits.now) }
{
    let n = bits.len();
    // There is no heap: three bits have at most twelve copies.
    let mut block = [AirBit { bit: 0, symbol: 0 }; 12];
    label(w, from, bits, &mut block[0..n]);
    let Ok(_) = deinterleave(copies, &block[0..n], output) else {
        unreachable()
    };
}

// Labels the bits of a part, and puts the copies of each bit in a row, block by block.
fn take_copies(copies: Copies, w: usize, bits: &[u8], output: &mut [AirBit])
    requires copied { Copied (copy_count copies) (length bits.now) }
    requires some { 0 < w }
    requires few { length bits.now ≤ 65536 }
    requires room { length output.old ≡ length bits.now }
    ensures { output.new ≡ deinterleaved (copy_count copies) (length bits.now / copy_count copies) (labelled w 0 bits.now) }
{
    let s = copies.count();
    if s == 1 {
        // One copy of each bit stands where it belongs.
        label(w, 0, bits, output);
        return;
    }
    let total = bits.len() / s;
    let lead = s * (3 * (total % 2));
    take_block(s, w, 0, &bits[0..lead], &mut output[0..lead]);
    let pair = 2 * s;
    // By index, as in `read_part`.
    for (i, block) in bits[lead..].chunks_exact(pair).enumerate() {
        let from = lead + pair * i;
        take_block(s, w, from, block, &mut output[from..from + pair]);
    }
}

// Reads so many symbols after index `at` of the list, and puts the copies of each bit in a row.
pub(crate) fn hear_copies<M: Mapping>(
    mapping: &M,
    copies: Copies,
    list: &[u8],
    at: usize,
    count: usize,
    heard: &mut [AirBit],
) -> Result<(), PartFault>
    requires there { at + 1 + count ≤ length list.now }
    requires copied { Copied (copy_count copies) (length heard.old) }
    requires few { length heard.old ≤ 33272 }
    requires room { length heard.old ≡ count * M.Mapping.map.w }
    ensures { HearsCopies M.Mapping.map (copy_count copies) list.now at count heard.new result }
{
    let n = heard.len();
    // There is no heap: the buffer has room for the longest part.
    let mut air = [0u8; MAX_AIR];
    read_part(mapping, list, at, count, &mut air[0..n])?;
    take_copies(copies, mapping.width(), &air[0..n], heard);
    Ok(())
}

// How many of the copies differ from the bit.
fn differing(bit: u8, copies: &[AirBit]) -> usize
    ensures { result ≡ differing_of bit (bits_of copies.now) }
{
    copies.iter().filter(|c| c.bit != bit).count()
}

// The bit that most of the copies say. A tie goes to the first copy.
fn decide(copies: &[AirBit]) -> u8
    requires some { 0 < length copies.now }
    requires bits { AllByRecursion Bit (bits_of copies.now) }
    ensures { result ≡ majority (bits_of copies.now) }
{
    let first = copies[0].bit;
    let against = differing(first, copies);
    if against > copies.len() - against {
        1 - first
    } else {
        first
    }
}

// Decides the bits of a word.
fn decide_word(copies: Copies, heard: &[AirBit], word: &mut [u8])
    requires bits { AllByRecursion Bit (bits_of heard.now) }
    requires room { length heard.now ≡ copy_count copies * length word.old }
    ensures { word.new ≡ decided (copy_count copies) (length word.old) (bits_of heard.now) }
{
    let s = copies.count();
    // With the window of place i: after `zip` with `iter_mut` nothing is known of what is written.
    for (i, bit) in word.iter_mut().enumerate() {
        let at = s * i;
        *bit = decide(&heard[at..at + s]);
    }
}

// How many bits of the word are spoilt: half or more of their copies differ from them.
fn spoilt(copies: Copies, word: &[u8], heard: &[AirBit]) -> usize
    requires { length heard.now ≡ copy_count copies * length word.now }
    ensures { result ≡ spoilt_of (copy_count copies) word.now (bits_of heard.now) }
{
    let s = copies.count();
    // Not `filter` and `count`: that chain found no proof.
    let mut n = 0;
    for (bit, own) in word.iter().zip(heard.chunks_exact(s)) {
        let against = differing(*bit, own);
        if against >= s - against {
            n += 1;
        }
    }
    n
}

// A word that is lost, told by the lowest symbol that carried one of its bits.
#[derive(Clone, Copy)]
pub(crate) struct LostWord {
    pub(crate) symbol: u16,
}

// The word of which these bits were heard, as one that is lost.
fn lost_word(heard: &[AirBit]) -> LostWord
    requires { 0 < length heard.now }
    ensures { Lowest heard.now result.symbol }
{
    let symbol = heard
        .iter()
        .fold(heard[0].symbol, |low, h| low.min(h.symbol));
    LostWord { symbol }
}

// Decides the bits of a word and corrects them, and counts which are spoilt. A word with more spoilt bits than the code
// corrects is none.
fn hear_word<C: BlockCode>(
    code: &C,
    copies: Copies,
    heard: &[AirBit],
    word: &mut [u8],
) -> Option<usize>
    requires bits { AllByRecursion Bit (bits_of heard.now) }
    requires size { length word.old ≡ (C.BlockCode.code code.now).k + (C.BlockCode.code code.now).p }
    requires room { length heard.now ≡ copy_count copies * length word.old }
    ensures { HearsWord (C.BlockCode.code code.now) (copy_count copies) (bits_of heard.now) word.new result }
{
    decide_word(copies, heard, word);
    code.correct(word).ok()?;
    let n = spoilt(copies, word, heard);
    (n <= code.reach()).then_some(n)
}

// Hears the message of a word in the code shortened by the unsent bits.
fn hear_message<C: BlockCode>(
    code: &C,
    unsent: usize,
    copies: Copies,
    heard: &[AirBit],
    message: &mut [u8],
) -> Option<usize>
    requires short { unsent < (C.BlockCode.code code.now).k }
    requires bits { AllByRecursion Bit (bits_of heard.now) }
    requires size { length message.old ≡ (C.BlockCode.code code.now).k - unsent }
    requires room { length heard.now ≡ copy_count copies * (length message.old + (C.BlockCode.code code.now).p) }
    ensures { HearsMessage (shortened (C.BlockCode.code code.now) unsent) (copy_count copies) (bits_of heard.now) message.new result }
{
    let m = message.len();
    let n = m + code.parity_bits();
    let Ok(short) = Shortened::new(*code, unsent) else {
        unreachable()
    };
    // There is no heap: the buffer has room for the longest word.
    let mut word = [0u8; 63];
    let count = hear_word(&short, copies, heard, &mut word[0..n])?;
    message.copy_from_slice(&word[0..m]);
    Some(count)
}

// Hears the bits that all words carry, and counts which bits of the words are spoilt, or tells the first lost word.
pub(crate) fn hear_words<C: BlockCode>(
    code: &C,
    copies: Copies,
    heard: &[AirBit],
    bits: &mut [u8],
) -> Result<usize, LostWord>
    requires carried { Carried (length bits.old) }
    requires heard_bits { AllByRecursion Bit (bits_of heard.now) }
    requires room { copy_count copies * sized (C.BlockCode.code code.now) (unsents (C.BlockCode.code code.now).k (length bits.old)) ≤ length heard.now }
    ensures { HearsWords (C.BlockCode.code code.now) (copy_count copies) heard.now (length bits.old) bits.new result }
{
    let k = code.message_bits();
    let p = code.parity_bits();
    let s = copies.count();
    let n = bits.len();
    let mut total = 0;
    // Places, as in `put_words`.
    let mut from = 0;
    let mut at = 0;
    for j in 0..word_count(k, n) {
        let Ok((m, unsent)) = share(j, k, n) else {
            unreachable()
        };
        let to = from + m;
        let end = at + s * (m + p);
        let own = &heard[at..end];
        let message = &mut bits[from..to];
        let count = hear_message(code, unsent, copies, own, message).ok_or_else(|| lost_word(own))?;
        total += count;
        from = to;
        at = end;
    }
    Ok(total)
}

use bits::{BadCall, number_of, put_bits};
use block_code::{Bch63, BlockCode, CorrectFault, Shortened};

// A tag's number has 19 bits.
pub const LAST_TAG: u32 = 524_287;

// The bits of a tag's number, the highest first, and 12 parity bits.
pub type Word = [u8; 31];

// The code of a tag's word: 63/51 without the first 32 message bits.
fn tag_code() -> Result<Shortened<Bch63>, BadCall> {
    Shortened::new(Bch63, 32)
}

// The word of a tag.
pub fn tag_word(tag: u32) -> Result<Word, BadCall> {
    let mut word = [0u8; 31];
    let (message, parity) = word.split_at_mut(19);
    put_bits(u64::from(tag), message);
    tag_code()?.encode(message, parity)?;
    Ok(word)
}

// Corrects a word, and answers how many bits were wrong and whose word it is.
pub fn corrected(mut word: Word) -> Result<(usize, u64), CorrectFault> {
    let count = tag_code()?.correct(&mut word)?;
    let tag = number_of(&word[..19])?;
    Ok((count, tag))
}

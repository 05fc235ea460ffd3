use super::show::{Digits, spoil};
use super::tag::{LAST_TAG, Word, corrected, tag_word};
use block_code::{Bch63, BlockCode, CorrectFault};
use std::io;

// A word on the bench: the tag that sent, and what was heard of its word.
#[derive(Clone, Copy, Default)]
pub struct Words {
    sent: u32,
    heard: Word,
}

impl Words {
    // Sends the word of a tag.
    pub fn send(&mut self, rt: &impl Print, tag: u32) -> io::Result<()> {
        if tag > LAST_TAG {
            return println!(rt; "tag {tag} has more than 19 bits");
        }
        let Ok(word) = tag_word(tag) else {
            return println!(rt; "the code turned the call away");
        };
        self.sent = tag;
        self.heard = word;
        let (message, parity) = word.split_at(19);
        println!(rt; "message {}", Digits(message))?;
        println!(rt; "parity  {}", Digits(parity))?;
        println!(rt; "sent    {}", Digits(&word))
    }

    // Hears the message of one tag with the parity of another.
    pub fn mix(&mut self, rt: &impl Print, first: u32, second: u32) -> io::Result<()> {
        if first > LAST_TAG || second > LAST_TAG {
            return println!(rt; "a tag's number has at most 19 bits");
        }
        let (Ok(own), Ok(other)) = (tag_word(first), tag_word(second)) else {
            return println!(rt; "the code turned the call away");
        };
        self.sent = first;
        self.heard = own;
        self.heard[19..].copy_from_slice(&other[19..]);
        println!(rt; "heard   {}", Digits(&self.heard))
    }

    // Turns a heard bit round.
    pub fn spoil(&mut self, rt: &impl Print, place: usize) -> io::Result<()> {
        spoil(rt, &mut self.heard, place, "a word has places")
    }

    // Corrects what is heard in the shortened code.
    pub fn correct(&self, rt: &impl Print) -> io::Result<()> {
        match corrected(self.heard) {
            Ok((count, tag)) => {
                let sent = self.sent;
                println!(rt; "wrong bits: {count}; delivered is tag {tag}, sent was tag {sent}")
            }
            Err(CorrectFault::NoWordNear) => println!(rt; "no word near: nothing is delivered"),
            Err(CorrectFault::Call(_)) => println!(rt; "the code turned the call away"),
        }
    }

    // What the full code would do with 32 zeros in front.
    pub fn full(&self, rt: &impl Print) -> io::Result<()> {
        let mut full = [0u8; 63];
        full[32..].copy_from_slice(&self.heard);
        let Ok(count) = Bch63.correct(&mut full) else {
            return println!(rt; "the full code finds no word near");
        };
        match full.iter().take(32).position(|bit| *bit != 0) {
            Some(place) => println!(rt;
                "the full code would alter {count} of its 63 places, one of them place {place}, which is never sent"
            ),
            None => println!(rt;
                "the full code would alter {count} of its 63 places, all of them sent"
            ),
        }
    }
}

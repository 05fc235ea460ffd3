use super::show::{Digits, Refusal, spoil};
use frame::{Header, HeaderForm, NarrowbandHeader};
use std::io;

// A header on the bench: its 19 bits as they were heard.
#[derive(Clone, Copy, Default)]
pub struct Headers {
    heard: [u8; 19],
}

impl Headers {
    // Writes a header.
    pub fn write(&mut self, rt: &impl Print, header: Header) -> io::Result<()> {
        let mut bits = [0u8; 19];
        if NarrowbandHeader.write(&header, &mut bits).is_err() {
            return println!(rt; "refused: rate 0 to 3, 9 to 264 bytes, burst mark and seed 0 or 1");
        }
        self.heard = bits;
        let (body, check) = bits.split_at(15);
        println!(rt; "header  {} hcs {}", Digits(body), Digits(check))
    }

    // Turns a header bit round.
    pub fn spoil(&mut self, rt: &impl Print, place: usize) -> io::Result<()> {
        spoil(rt, &mut self.heard, place, "a header has bits")
    }

    // Reads the header back, where every rate is carried.
    pub fn read(&self, rt: &impl Print) -> io::Result<()> {
        match NarrowbandHeader.read(&self.heard, &[true; 4]) {
            Ok(header) => {
                let Header {
                    rate,
                    bytes,
                    burst,
                    seed,
                } = header;
                println!(rt; "rate {rate}, {bytes} bytes, burst mark {burst}, seed {seed}")
            }
            Err(fault) => println!(rt; "{}", Refusal::from(fault)),
        }
    }
}

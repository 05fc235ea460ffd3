use super::carry::{Mode, bits_of};
use super::command::Unclear;
use super::show::Refusal;
use delivery::{Delivered, Fault};
use plan::Band;
use post::Post;
use std::alloc::Global;
use std::io;
use std::str::FromStr;

// The symbols of the longest frame of any band.
const LONGEST: usize = 10_678;

// The index of the last preamble symbol in a frame.
const LAST_OF_PREAMBLE: usize = 89;

// Which of the two posts.
#[derive(Clone, Copy)]
pub enum Side {
    Sender,
    Hearer,
}

impl FromStr for Side {
    type Err = Unclear;

    fn from_str(name: &str) -> Result<Side, Unclear> {
        match name {
            "sender" => Ok(Side::Sender),
            "hearer" => Ok(Side::Hearer),
            _ => Err(Unclear::NoSide),
        }
    }
}

// Two posts, and what one hears of the other: a list from the last preamble symbol on.
#[derive(Drop)]
pub struct Radio {
    heap: Global,
    sender: Post<Band>,
    hearer: Post<Band>,
    list: Vec<u8>,
}

// Opens a post on a channel of a band.
fn open_band(band: u32, channel: u32) -> Result<Post<Band>, Fault> {
    Post::open(Band::try_from(band)?, channel)
}

fn show_delivery(rt: &impl Print, delivered: Delivered, output: &[u8]) -> io::Result<()> {
    let Delivered {
        rate,
        burst,
        seed,
        bytes,
        spoilt,
    } = delivered;
    println!(rt;
        "delivered: rate {rate}, burst mark {burst}, seed {seed}, {bytes} bytes, spoilt bits {spoilt}"
    )?;
    let Some(psdu) = output.get(..bytes) else {
        return Ok(());
    };
    match std::str::from_utf8(psdu) {
        Ok(text) => println!(rt; "PSDU    {text}"),
        Err(_) => println!(rt; "PSDU    {psdu:?}"),
    }
}

impl Radio {
    // Both posts on channel 0 of band 2, and nothing heard yet.
    pub fn new(heap: Global) -> Result<Radio, Fault> {
        Ok(Radio {
            heap,
            sender: open_band(2, 0)?,
            hearer: open_band(2, 0)?,
            list: Vec::new(heap),
        })
    }

    fn post(&mut self, side: Side) -> &mut Post<Band> {
        match side {
            Side::Sender => &mut self.sender,
            Side::Hearer => &mut self.hearer,
        }
    }

    // Opens one of the posts.
    pub fn open(&mut self, rt: &impl Print, side: Side, band: u32, channel: u32) -> io::Result<()> {
        match open_band(band, channel) {
            Ok(post) => {
                *self.post(side) = post;
                println!(rt; "open on channel {channel} of band {band}")
            }
            Err(fault) => println!(rt; "{}", Refusal::from(fault)),
        }
    }

    // Retunes the sender.
    pub fn retune(&mut self, rt: &impl Print, channel: u32) -> io::Result<()> {
        match self.sender.retune(channel) {
            Ok(()) => println!(rt; "on channel {channel}"),
            Err(fault) => println!(rt; "{}", Refusal::from(fault)),
        }
    }

    // Sends a PSDU; `room` is the size of the symbol buffer.
    pub fn send(
        &mut self,
        rt: &impl Print,
        rate: u32,
        burst: u32,
        room: usize,
        psdu: &[u8],
    ) -> anyhow::Result<()> {
        let mut symbols = vec![in self.heap; 0u8; room.min(LONGEST)]?;
        let count = match self.sender.send(rate, burst, psdu, &mut symbols) {
            Ok(count) => count,
            // The bench prints a refusal and goes on, so it does not leave by `?`.
            Err(fault) => return Ok(println!(rt; "{}", Refusal::from(fault))?),
        };
        let Some(heard) = symbols.get(LAST_OF_PREAMBLE..count) else {
            return Ok(());
        };
        self.list.clear();
        self.list.extend_from_slice(heard)?;
        println!(rt;
            "sent {count} symbols; the list from the last preamble symbol on has {}",
            heard.len()
        )?;
        Ok(())
    }

    // Puts a symbol into the heard list.
    pub fn put(&mut self, rt: &impl Print, index: usize, symbol: u8) -> io::Result<()> {
        let Some(place) = self.list.get_mut(index) else {
            return println!(rt; "the list is not so long");
        };
        *place = symbol;
        println!(rt; "symbol {symbol} at index {index}")
    }

    // Keeps the front of the heard list.
    pub fn cut(&mut self, rt: &impl Print, length: usize) -> io::Result<()> {
        self.list.truncate(length);
        println!(rt; "the list has {} symbols", self.list.len())
    }

    // Hears the list into an output of so many bytes.
    pub fn hear(&self, rt: &impl Print, room: usize) -> anyhow::Result<()> {
        let mut output = vec![in self.heap; 0u8; room.min(LONGEST)]?;
        match self.hearer.hear(&self.list, &mut output) {
            Ok(delivered) => show_delivery(rt, delivered, &output)?,
            Err(fault) => println!(rt; "{}", Refusal::from(fault))?,
        }
        Ok(())
    }

    // Carries bits by a mode; what is heard is their symbols.
    pub fn carry(&mut self, rt: &impl Print, mode: Mode, text: &str) -> anyhow::Result<()> {
        let Ok(bits) = bits_of(self.heap, text) else {
            return Ok(println!(rt; "not understood: the bits are digits 0 and 1")?);
        };
        mode.carry(rt, self.heap, &bits, &mut self.list)
    }

    // Hears bits by a mode.
    pub fn carried(&self, rt: &impl Print, mode: Mode, n: usize) -> anyhow::Result<()> {
        mode.hear(rt, self.heap, &self.list, n)
    }
}

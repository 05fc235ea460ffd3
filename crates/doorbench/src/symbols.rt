use super::command::Unclear;
use super::show::Digits;
use mapping::fault::ReadFault;
use mapping::{D8psk, Dbpsk, Dqpsk, Gmsk, Mapping};
use std::io;
use std::str::FromStr;

// Which mapping.
#[derive(Clone, Copy)]
pub enum Kind {
    Dbpsk,
    Dqpsk,
    D8psk,
    Gmsk,
}

impl FromStr for Kind {
    type Err = Unclear;

    fn from_str(name: &str) -> Result<Kind, Unclear> {
        match name {
            "dbpsk" => Ok(Kind::Dbpsk),
            "dqpsk" => Ok(Kind::Dqpsk),
            "d8psk" => Ok(Kind::D8psk),
            "gmsk" => Ok(Kind::Gmsk),
            _ => Err(Unclear::NoMapping),
        }
    }
}

// The bits of a symbol: one, two or three.
#[derive(Clone, Copy)]
pub enum SymbolBits {
    One([u8; 1]),
    Two([u8; 2]),
    Three([u8; 3]),
}

impl SymbolBits {
    fn as_slice(&self) -> &[u8] {
        match self {
            SymbolBits::One(bits) => bits,
            SymbolBits::Two(bits) => bits,
            SymbolBits::Three(bits) => bits,
        }
    }
}

impl FromStr for SymbolBits {
    type Err = Unclear;

    fn from_str(text: &str) -> Result<SymbolBits, Unclear> {
        match *text.as_bytes() {
            [a] => Ok(SymbolBits::One([bit(a)?])),
            [a, b] => Ok(SymbolBits::Two([bit(a)?, bit(b)?])),
            [a, b, c] => Ok(SymbolBits::Three([bit(a)?, bit(b)?, bit(c)?])),
            _ => Err(Unclear::NoBits),
        }
    }
}

// The bit that a digit writes.
pub fn bit(digit: u8) -> Result<u8, Unclear> {
    match digit {
        b'0' => Ok(0),
        b'1' => Ok(1),
        _ => Err(Unclear::NoBits),
    }
}

fn step_with<M: Mapping>(rt: &impl Print, mapping: &M, prior: u8, bits: &[u8]) -> io::Result<()> {
    match mapping.step(prior, bits) {
        Ok(next) => println!(rt; "from {prior} to {next}"),
        Err(_) => println!(rt;
            "refused: no symbol of the mapping, or not as many bits as a symbol has"
        ),
    }
}

fn read_with<M: Mapping>(rt: &impl Print, mapping: &M, prior: u8, next: u8) -> io::Result<()> {
    let mut bits = [0u8; 3];
    let Some(places) = bits.get_mut(..mapping.width()) else {
        return println!(rt; "a symbol has more than 3 bits");
    };
    match mapping.read(prior, next, places) {
        Ok(()) => println!(rt; "from {prior} to {next} by {}", Digits(places)),
        Err(ReadFault::NoSuchStep) => println!(rt; "no such step"),
        Err(ReadFault::Call(_)) => println!(rt; "refused: no symbol of the mapping"),
    }
}

// `Mapping` has constants and is `Copy`, so it is no `dyn` trait: `step` and `read` match the kind each.
impl Kind {
    // Steps from a symbol with the bits of one symbol.
    pub fn step(&self, rt: &impl Print, prior: u8, bits: SymbolBits) -> io::Result<()> {
        let bits = bits.as_slice();
        match self {
            Kind::Dbpsk => step_with(rt, &Dbpsk, prior, bits),
            Kind::Dqpsk => step_with(rt, &Dqpsk, prior, bits),
            Kind::D8psk => step_with(rt, &D8psk, prior, bits),
            Kind::Gmsk => step_with(rt, &Gmsk, prior, bits),
        }
    }

    // Reads a step from one symbol to another.
    pub fn read(&self, rt: &impl Print, prior: u8, next: u8) -> io::Result<()> {
        match self {
            Kind::Dbpsk => read_with(rt, &Dbpsk, prior, next),
            Kind::Dqpsk => read_with(rt, &Dqpsk, prior, next),
            Kind::D8psk => read_with(rt, &D8psk, prior, next),
            Kind::Gmsk => read_with(rt, &Gmsk, prior, next),
        }
    }
}

use super::carry::Mode;
use super::radio::Side;
use super::symbols::{Kind, SymbolBits};
use frame::Header;
use mode::Copies;
use std::error::Error;
use std::fmt;
use std::num::ParseIntError;
use std::str::{FromStr, SplitWhitespace};

// What a line asks for.
#[derive(Clone, Copy)]
pub enum Command<'a> {
    Nothing,
    Help,
    Tag(u32),
    Mix(u32, u32),
    Spoil(usize),
    Correct,
    Full,
    Step(Kind, u8, SymbolBits),
    Read(Kind, u8, u8),
    Write(Header),
    SpoilHeader(usize),
    ReadHeader,
    Open(Side, u32, u32),
    Retune(u32),
    Send(u32, u32, usize, &'a str),
    Put(usize, u8),
    Cut(usize),
    Hear(usize),
    Carry(Mode, &'a str),
    Carried(Mode, usize),
}

// Why a line cannot be read.
#[derive(Clone, Copy, Debug)]
pub enum Unclear {
    Unknown,
    NoNumber,
    NoMapping,
    NoBits,
    NoSide,
    NoCopies,
    NoText,
    TooMuch,
}

impl fmt::Display for Unclear {
    fn fmt<W: fmt::Write>(&self, f: &mut fmt::Formatter<W>) -> fmt::Result {
        f.write_str(match self {
            Unclear::Unknown => "no such command",
            Unclear::NoNumber => "a number is missing or cannot be read",
            Unclear::NoMapping => "the mappings are dbpsk, dqpsk, d8psk and gmsk",
            Unclear::NoBits => "the bits of a symbol are one to three digits 0 or 1",
            Unclear::NoSide => "the posts are sender and hearer",
            Unclear::NoCopies => "a mode has 1, 2 or 4 copies",
            Unclear::NoText => "the PSDU is missing",
            Unclear::TooMuch => "there is more on the line than the command takes",
        })
    }
}

impl Error for Unclear {}

impl From<ParseIntError> for Unclear {
    fn from(_: ParseIntError) -> Unclear {
        Unclear::NoNumber
    }
}

// The next word of a line as a value; where no word is left, an empty one is read.
fn value<T: FromStr>(words: &mut SplitWhitespace<'_>) -> Result<T, Unclear>
where
    Unclear: From<T::Err>,
{
    Ok(words.next().unwrap_or("").parse::<T>()?)
}

// A size: a number of 32 bits.
fn size(words: &mut SplitWhitespace<'_>) -> Result<usize, Unclear> {
    // 32 bits fit; `From` is not there for them
    Ok(value::<u32>(words)? as usize)
}

fn text<'a>(words: &mut SplitWhitespace<'a>) -> Result<&'a str, Unclear> {
    words.next().ok_or(Unclear::NoText)
}

fn header(words: &mut SplitWhitespace<'_>) -> Result<Header, Unclear> {
    Ok(Header {
        rate: value(words)?,
        bytes: size(words)?,
        burst: value(words)?,
        seed: value(words)?,
    })
}

fn mode(words: &mut SplitWhitespace<'_>) -> Result<Mode, Unclear> {
    let kind = value(words)?;
    let copies = Copies::try_from(size(words)?).map_err(|_| Unclear::NoCopies)?;
    Ok(Mode { kind, copies })
}

// The command of a name, with the words that it takes.
fn named<'a>(name: &str, words: &mut SplitWhitespace<'a>) -> Result<Command<'a>, Unclear> {
    Ok(match name {
        "help" => Command::Help,
        "tag" => Command::Tag(value(words)?),
        "mix" => Command::Mix(value(words)?, value(words)?),
        "spoil" => Command::Spoil(size(words)?),
        "correct" => Command::Correct,
        "full" => Command::Full,
        "step" => Command::Step(value(words)?, value(words)?, value(words)?),
        "read" => Command::Read(value(words)?, value(words)?, value(words)?),
        "header" => Command::Write(header(words)?),
        "spoil-header" => Command::SpoilHeader(size(words)?),
        "read-header" => Command::ReadHeader,
        "open" => Command::Open(value(words)?, value(words)?, value(words)?),
        "retune" => Command::Retune(value(words)?),
        "send" => Command::Send(value(words)?, value(words)?, size(words)?, text(words)?),
        "put" => Command::Put(size(words)?, value(words)?),
        "cut" => Command::Cut(size(words)?),
        "hear" => Command::Hear(size(words)?),
        "carry" => Command::Carry(mode(words)?, text(words)?),
        "carried" => Command::Carried(mode(words)?, size(words)?),
        _ => return Err(Unclear::Unknown),
    })
}

impl<'a> TryFrom<&'a str> for Command<'a> {
    type Error = Unclear;

    fn try_from(line: &'a str) -> Result<Command<'a>, Unclear> {
        let mut words = line.split_whitespace();
        let Some(name) = words.next() else {
            return Ok(Command::Nothing);
        };
        let command = named(name, &mut words)?;
        match words.next() {
            Some(_) => Err(Unclear::TooMuch),
            None => Ok(command),
        }
    }
}

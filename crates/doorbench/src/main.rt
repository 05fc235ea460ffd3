// A bench for the door radio: reads commands from standard input, one a line, does them and prints what it did.
#![tactic(auto)]

mod carry;
mod command;
mod headers;
mod radio;
mod show;
mod symbols;
mod tag;
mod words;

use anyhow::anyhow;
use command::Command;
use headers::Headers;
use radio::Radio;
use words::Words;

const HELP: &str = "help            these lines
tag N           take tag number N (0 to 524287) and send its word: 19 message bits and 12 parity bits
mix N M         hear the message of tag N with the parity of tag M, as when two tags answer at once
spoil P         turn the heard bit at place P (0 to 30) round
correct         correct what is heard in the code shortened by 32 bits
full            show what the full code would do with 32 zeros in front
step M P BITS   step by mapping M (dbpsk, dqpsk, d8psk, gmsk) from symbol P with the bits of one symbol
read M P N      read the step by mapping M from symbol P to symbol N
header R N B S  write the header of rate R, N bytes, burst mark B and seed S
spoil-header P  turn bit P (0 to 18) of the header round
read-header     read the header back
open W B C      open the post W (sender or hearer) on channel C of band B
retune C        retune the sender
send R B N TEXT send TEXT at rate R with burst mark B into a buffer of N symbols
put I S         put symbol S at index I of the heard list
cut N           keep the first N symbols of the heard list
hear N          hear the list into N bytes
carry M S BITS  carry BITS by mapping M with S copies of each coded bit: the heard list is theirs, after symbol 0
carried M S N   hear N bits by that mode from the heard list";

// What is on the bench.
#[derive(Drop)]
struct Bench {
    words: Words,
    headers: Headers,
    radio: Radio,
}

fn act(rt: &HostRuntime, bench: &mut Bench, command: Command<'_>) -> anyhow::Result<()> {
    match command {
        Command::Nothing => {}
        Command::Help => println!(rt; "{HELP}")?,
        Command::Tag(tag) => bench.words.send(rt, tag)?,
        Command::Mix(first, second) => bench.words.mix(rt, first, second)?,
        Command::Spoil(place) => bench.words.spoil(rt, place)?,
        Command::Correct => bench.words.correct(rt)?,
        Command::Full => bench.words.full(rt)?,
        Command::Step(kind, prior, bits) => kind.step(rt, prior, bits)?,
        Command::Read(kind, prior, next) => kind.read(rt, prior, next)?,
        Command::Write(header) => bench.headers.write(rt, header)?,
        Command::SpoilHeader(place) => bench.headers.spoil(rt, place)?,
        Command::ReadHeader => bench.headers.read(rt)?,
        Command::Open(side, band, channel) => bench.radio.open(rt, side, band, channel)?,
        Command::Retune(channel) => bench.radio.retune(rt, channel)?,
        Command::Send(rate, burst, room, text) => bench
            .radio
            .send(rt, rate, burst, room, text.as_bytes())?,
        Command::Put(index, symbol) => bench.radio.put(rt, index, symbol)?,
        Command::Cut(length) => bench.radio.cut(rt, length)?,
        Command::Carry(mode, text) => bench.radio.carry(rt, mode, text)?,
        Command::Carried(mode, n) => bench.radio.carried(rt, mode, n)?,
        Command::Hear(room) => bench.radio.hear(rt, room)?,
    }
    Ok(())
}

fn run(rt: &HostRuntime) -> anyhow::Result<()> {
    let radio = Radio::new(rt.alloc()).map_err(|_| anyhow!("the posts cannot be opened"))?;
    let mut bench = Bench {
        words: Words::default(),
        headers: Headers::default(),
        radio,
    };
    for line in rt.lines(rt.alloc()) {
        let line = line?;
        let text = line.as_str();
        println!(rt; "> {text}")?;
        match Command::try_from(text) {
            Ok(command) => act(rt, &mut bench, command)?,
            Err(unclear) => println!(rt; "not understood: {unclear}; 'help' lists the commands")?,
        }
    }
    Ok(())
}

fn main(rt: HostRuntime) -> anyhow::Result<()> {
    run(&rt)
}

// Block codes over bits: the code 63/51, the plain code, and any code shortened.
#![tactic(auto)]

pub mod bch63;
pub mod code;
pub mod fault;
pub mod plain;
pub mod shortened;

ghost use Rattle.std.specs.Prelude.{◌≡◌};
ghost use Rattle.block_code.specs.Laws.{OneCorrection, SomeCorrection, Near};
ghost use Rattle.block_code.specs.Examples.{Examples};

pub use bch63::Bch63;
pub use code::BlockCode;
pub use fault::CorrectFault;
pub use plain::Plain;
pub use shortened::Shortened;

// How many wrong bits of a word every correction by this code undoes, with what is proved of its corrections: each has
// an answer, and no other; bits within reach of a word become that word, and all others stay.
pub fn guaranteed_reach<C: BlockCode>(code: &C) -> usize
    ensures value { result ≡ (C.BlockCode.code code.now).t }
    ensures some { SomeCorrection (C.BlockCode.code code.now) }
    ensures one { OneCorrection (C.BlockCode.code code.now) }
    ensures near { Near (C.BlockCode.code code.now) }
{
    code.reach()
}

// How many worked examples are stated, and that they hold by the rules.
pub fn worked_examples() -> usize
    ensures { (result ≡ 2) × Examples }
{
    2
}

#[cfg(test)]
mod tests;

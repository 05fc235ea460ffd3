// How the bits of a part are shared out among words.
ghost use Rattle.std.specs.Prelude.{◌≡◌, ◌<◌, ◌≤◌};
ghost use Rattle.mode.specs.Shares.{words as words_of, spare as spare_of, Shares, AllShared};

use bits::BadCall;

// How many words n bits take.
pub(crate) fn word_count(k: usize, n: usize) -> usize
    requires some { 1 ≤ k }
    requires narrow { k ≤ 63 }
    requires few { n ≤ 65535 }
    ensures { result ≡ words_of k n }
{
    (n + (k - 1)) / k
}

// How many of the bits that are missing in all words are missing in this one: the first words take the remainder.
fn spare(words: usize, missing: usize, word: usize) -> usize
    requires { word < words }
    ensures { result ≡ spare_of words missing word }
{
    if word < missing % words {
        missing / words + 1
    } else {
        missing / words
    }
}

// The share of a word: how many message bits it carries, and how many stay unsent. With room for k message bits in a
// word, the n bits take as few words as they can, and the first words have one unsent bit more than the last.
pub fn share(word: usize, k: usize, n: usize) -> Result<(usize, usize), BadCall>
    ensures answer { Shares word k n result }
    ensures whole { AllShared }
{
    if !(1..=63).contains(&k) || !(1..=65535).contains(&n) {
        return Err(BadCall);
    }
    let words = word_count(k, n);
    if word >= words {
        return Err(BadCall);
    }
    let unsent = spare(words, words * k - n, word);
    Ok((k - unsent, unsent))
}

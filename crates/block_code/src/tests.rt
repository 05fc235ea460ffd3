use super::*;
use bits::BadCall;
use std::test::Fail;

// Writes bits that look random.
fn fill(bits: &mut [u8], seed: u8) {
    let mut x = seed;
    for bit in bits {
        x = x.wrapping_mul(77).wrapping_add(31);
        *bit = (x >> 7) & 1;
    }
}

// Spoils the bits at some places.
fn spoil(bits: &mut [u8], places: &[usize]) {
    for place in places {
        if let Some(bit) = bits.get_mut(*place) {
            *bit ^= 1;
        }
    }
}

// A word of the code 63/51 whose message looks random.
fn word_of(seed: u8) -> Result<[u8; 63], Fail> {
    let mut word = [0u8; 63];
    let (message, parity) = word.split_at_mut(51);
    fill(message, seed);
    Bch63.encode(message, parity)?;
    Ok(word)
}

#[derive(Clone, Copy)]
struct Case {
    seed: u8,
    spoilt: &'static [usize],
}

const CASES: [Case; 9] = [
    Case {
        seed: 1,
        spoilt: &[],
    },
    Case {
        seed: 2,
        spoilt: &[0],
    },
    Case {
        seed: 3,
        spoilt: &[62],
    },
    Case {
        seed: 4,
        spoilt: &[51],
    },
    Case {
        seed: 5,
        spoilt: &[0, 62],
    },
    Case {
        seed: 6,
        spoilt: &[50, 51],
    },
    Case {
        seed: 7,
        spoilt: &[58, 61],
    },
    Case {
        seed: 8,
        spoilt: &[3, 30, 57],
    },
    Case {
        seed: 9,
        spoilt: &[0, 1, 62],
    },
];

// Up to two spoilt bits are corrected with their count; with three the word does not come back.
#[test]
fn corrects_two_places(rt: HostRuntime) -> Result<(), Fail> {
    for case in CASES {
        let word = word_of(case.seed)?;
        let mut heard = word;
        spoil(&mut heard, case.spoilt);
        let answer = Bch63.correct(&mut heard);
        if case.spoilt.len() <= 2 {
            assert!(rt; answer == Ok(case.spoilt.len()));
            assert!(rt; heard == word);
        } else {
            assert!(rt; heard != word);
        }
    }
    Ok(())
}

#[test]
fn refuses_bad_calls(rt: HostRuntime) {
    let mut parity = [7u8; 12];
    let mut bits = [0u8; 63];
    assert!(rt; Bch63.encode(&bits[0..50], &mut parity) == Err(BadCall));
    assert!(rt; Bch63.encode(&bits[0..51], &mut parity[0..11]) == Err(BadCall));
    bits[4] = 2;
    assert!(rt; Bch63.encode(&bits[0..51], &mut parity) == Err(BadCall));
    assert!(rt; Bch63.correct(&mut bits) == Err(CorrectFault::Call(BadCall)));
    assert!(rt; Bch63.correct(&mut bits[5..63]) == Err(CorrectFault::Call(BadCall)));
    assert!(rt; Bch63.syndromes(&bits) == Err(BadCall));
    assert!(rt; Plain.encode(&bits[5..56], &mut parity) == Err(BadCall));
    assert!(rt; Plain.correct(&mut bits[0..51]) == Err(CorrectFault::Call(BadCall)));
    assert!(rt; bits[4] == 2 && parity == [7u8; 12]);
    assert!(rt; Shortened::new(Bch63, 51).is_err());
    assert!(rt; Shortened::new(Bch63, 50).is_ok());
}

// Two words mixed: the full code would set an unsent bit, so the shortened code delivers nothing.
#[test]
fn keeps_unsent_bits(rt: HostRuntime) -> Result<(), Fail> {
    let short = Shortened::new(Bch63, 32)?;
    assert_eq!(rt; short.message_bits(), 19);
    assert_eq!(rt; short.unsent(), 32);
    assert_eq!(rt; short.clone()?.unsent(), 32);
    let mut full = [0u8; 63];
    spoil(&mut full, &[40, 59, 61, 62]);
    let mut heard = [0u8; 31];
    heard.copy_from_slice(&full[32..63]);
    assert!(rt; Bch63.correct(&mut full) == Ok(1));
    assert!(rt; full[5] == 1);
    let before = heard;
    assert!(rt; short.correct(&mut heard) == Err(CorrectFault::NoWordNear));
    assert!(rt; heard == before);
    Ok(())
}

#[test]
fn plain_words_are_all_strings(rt: HostRuntime) {
    let mut bits = [1u8; 51];
    let mut none = [0u8; 0];
    assert!(rt; Plain.encode(&bits, &mut none) == Ok(()));
    assert!(rt; Plain.correct(&mut bits) == Ok(0));
}

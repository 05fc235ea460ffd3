use super::*;
use bits::BadCall;
use block_code::{Bch63, Plain};
use mapping::{D8psk, Dbpsk};
use std::test::Fail;

const B2: Chain<Bch63, Dbpsk> = Chain {
    code: Bch63,
    copies: Copies::Two,
    mapping: Dbpsk,
};

const E1: Chain<Plain, D8psk> = Chain {
    code: Plain,
    copies: Copies::One,
    mapping: D8psk,
};

const BITS: [u8; 19] = [1, 0, 1, 1, 0, 0, 0, 1, 1, 1, 0, 1, 0, 0, 1, 1, 1, 0, 1];

#[test]
fn shares_bits_out(rt: HostRuntime) {
    assert_eq!(rt; share(0, 51, 104), Ok((34, 17)));
    assert_eq!(rt; share(2, 51, 104), Ok((35, 16)));
    assert_eq!(rt; share(3, 51, 104), Err(BadCall));
    assert_eq!(rt; share(0, 64, 104), Err(BadCall));
    assert_eq!(rt; share(0, 51, 0), Err(BadCall));
}

#[test]
fn interleaves_and_back(rt: HostRuntime) -> Result<(), Fail> {
    let mut out = [0u8; 10];
    interleave(2, &[0, 1, 2, 3, 4, 5, 6, 7, 8, 9], &mut out)?;
    assert_eq!(rt; out, [0, 2, 4, 1, 3, 5, 6, 8, 7, 9]);
    let mut back = [0u8; 10];
    deinterleave(2, &out, &mut back)?;
    assert_eq!(rt; back, [0, 1, 2, 3, 4, 5, 6, 7, 8, 9]);
    assert_eq!(rt; interleave(0, &out, &mut back), Err(BadCall));
    assert_eq!(rt; interleave(10, &out, &mut back), Err(BadCall));
    assert_eq!(rt; deinterleave(3, &out, &mut back), Err(BadCall));
    Ok(())
}

// Replaces some symbols of a list.
fn change(list: &mut [u8], changes: &[(usize, u8)]) {
    for (i, symbol) in changes {
        if let Some(place) = list.get_mut(*i) {
            *place = *symbol;
        }
    }
}

// What hearing a part with some symbols replaced answers.
fn heard(changes: &[(usize, u8)]) -> Result<Result<usize, HearFault>, BadCall> {
    let mut list = [4u8; 63];
    let _ = B2.send(4, &BITS, &mut list[1..])?;
    change(&mut list, changes);
    let mut bits = [0u8; 19];
    Ok(B2.hear(&list, 0, &mut bits))
}

#[test]
fn hears_what_was_sent(rt: HostRuntime) {
    let mut list = [4u8; 63];
    assert_eq!(rt; B2.send(4, &BITS, &mut list[1..]), Ok(62));
    let mut bits = [0u8; 19];
    assert_eq!(rt; B2.hear(&list, 0, &mut bits), Ok(0));
    assert_eq!(rt; bits, BITS);
    let pair: Choice<Chain<Plain, D8psk>, Chain<Bch63, Dbpsk>> = Choice::Second(B2);
    assert_eq!(rt; pair.hear(&list, 0, &mut bits), Ok(0));
    assert_eq!(rt;
        pair.hear(&list, 1, &mut bits),
        Err(HearFault::Call(BadCall))
    );
    assert_eq!(rt; E1.symbol_count(80), Ok(27));
    assert_eq!(rt; E1.symbol_count(1), Err(BadCall));
}

#[test]
fn tells_faults_by_their_index(rt: HostRuntime) -> Result<(), Fail> {
    assert_eq!(rt;
        heard(&[(0, 16)])?,
        Err(HearFault::Part(PartFault::Symbol(0)))
    );
    assert_eq!(rt;
        heard(&[(5, 200), (9, 17)])?,
        Err(HearFault::Part(PartFault::Symbol(5)))
    );
    assert_eq!(rt; heard(&[(7, 5)])?, Err(HearFault::Part(PartFault::Step(7))));
    Ok(())
}

#[test]
fn makes_copies_from_their_count(rt: HostRuntime) -> Result<(), Fail> {
    for count in [1, 2, 4] {
        assert_eq!(rt; Copies::try_from(count)?.count(), count);
    }
    for count in [0, 3, 5] {
        assert_eq!(rt; Copies::try_from(count), Err(BadCall));
    }
    Ok(())
}

#[test]
fn carries_2_to_2112_bits(rt: HostRuntime) {
    assert_eq!(rt; E1.symbol_count(2), Ok(1));
    assert_eq!(rt; E1.symbol_count(MAX_BITS), Ok(704));
    assert_eq!(rt; E1.symbol_count(MAX_BITS + 1), Err(BadCall));
    let mut symbols = [0u8; 704];
    assert_eq!(rt; E1.send(0, &[1], &mut symbols), Err(BadCall));
    assert_eq!(rt; E1.send(0, &[1, 2], &mut symbols), Err(BadCall));
    assert_eq!(rt; E1.send(0, &[1, 1], &mut symbols), Ok(1));
}

use super::*;
use std::process::Abort;

// The bits lead from the prior symbol to the next, and are read there.
fn leads<M: Mapping>(
    rt: &impl Abort,
    mapping: &M,
    prior: u8,
    bits: &[u8],
    next: u8,
    places: &mut [u8],
) {
    assert_eq!(rt; mapping.step(prior, bits), Ok(next));
    assert_eq!(rt; mapping.read(prior, next, places), Ok(()));
    assert_eq!(rt; &*places, bits);
}

// A reading fails, and leaves the places as they were.
fn fails<M: Mapping>(
    rt: &impl Abort,
    mapping: &M,
    prior: u8,
    next: u8,
    places: &mut [u8],
    before: &[u8],
    fault: ReadFault,
) {
    assert_eq!(rt; mapping.read(prior, next, places), Err(fault));
    assert_eq!(rt; &*places, before);
}

const D8PSK_FROM_2: [([u8; 3], u8); 8] = [
    ([0, 0, 0], 3),
    ([0, 0, 1], 5),
    ([0, 1, 0], 9),
    ([0, 1, 1], 7),
    ([1, 0, 0], 1),
    ([1, 0, 1], 15),
    ([1, 1, 0], 11),
    ([1, 1, 1], 13),
];

const DQPSK_FROM_4: [([u8; 2], u8); 4] = [([0, 0], 6), ([0, 1], 10), ([1, 0], 2), ([1, 1], 14)];

const DBPSK: [(u8, u8, u8); 4] = [(4, 0, 8), (8, 1, 4), (15, 0, 3), (0, 1, 12)];

const GMSK: [(u8, u8, u8); 4] = [(0, 0, 0), (0, 1, 1), (1, 0, 0), (1, 1, 1)];

#[test]
fn d8psk_steps_and_reads(rt: HostRuntime) {
    for (bits, next) in D8PSK_FROM_2 {
        leads(&rt, &D8psk, 2, &bits, next, &mut [7; 3]);
    }
}

#[test]
fn dqpsk_steps_and_reads(rt: HostRuntime) {
    for (bits, next) in DQPSK_FROM_4 {
        leads(&rt, &Dqpsk, 4, &bits, next, &mut [7; 2]);
    }
}

#[test]
fn one_bit_steps_and_reads(rt: HostRuntime) {
    for (prior, bit, next) in DBPSK {
        leads(&rt, &Dbpsk, prior, &[bit], next, &mut [7]);
    }
    for (prior, bit, next) in GMSK {
        leads(&rt, &Gmsk, prior, &[bit], next, &mut [7]);
    }
}

#[test]
fn tables_have_a_step_for_each_number(rt: HostRuntime) {
    assert_eq!(rt; Dbpsk::steps(), [4, 12].as_slice());
    assert_eq!(rt; Dqpsk::steps(), [2, 6, 14, 10].as_slice());
    assert_eq!(rt; D8psk::steps(), [1, 3, 7, 5, 15, 13, 9, 11].as_slice());
    assert_eq!(rt; Dbpsk::steps().len(), 1 << Dbpsk::BITS);
    assert_eq!(rt; Dqpsk::steps().len(), 1 << Dqpsk::BITS);
    assert_eq!(rt; D8psk::steps().len(), 1 << D8psk::BITS);
}

#[test]
fn every_phase_is_a_prior(rt: HostRuntime) {
    for prior in 0..16u8 {
        leads(
            &rt,
            &D8psk,
            prior,
            &[0, 1, 1],
            (prior + 5) % 16,
            &mut [7; 3],
        );
        fails(
            &rt,
            &D8psk,
            prior,
            (prior + 6) % 16,
            &mut [7; 3],
            &[7; 3],
            ReadFault::NoSuchStep,
        );
    }
}

// Bad for DQPSK and for GMSK.
const BAD_STEPS: [(u8, &[u8]); 8] = [
    (16, &[0, 0]),
    (255, &[0, 0]),
    (3, &[]),
    (3, &[0]),
    (3, &[0, 0, 0]),
    (1, &[0, 2]),
    (2, &[0]),
    (0, &[2]),
];

#[test]
fn refuses_to_step(rt: HostRuntime) {
    for (prior, bits) in BAD_STEPS {
        assert_eq!(rt; Dqpsk.step(prior, bits), Err(BadCall));
        assert_eq!(rt; Gmsk.step(prior, bits), Err(BadCall));
    }
}

const BAD_READS: [(u8, u8); 3] = [(16, 2), (2, 16), (255, 255)];

#[test]
fn refuses_to_read(rt: HostRuntime) {
    let bad = ReadFault::Call(BadCall);
    for (prior, next) in BAD_READS {
        fails(&rt, &Dqpsk, prior, next, &mut [7; 2], &[7; 2], bad);
        fails(&rt, &Gmsk, prior, next, &mut [7; 1], &[7; 1], bad);
    }
    fails(&rt, &Dqpsk, 2, 4, &mut [7; 1], &[7; 1], bad);
    fails(&rt, &Dqpsk, 2, 4, &mut [7; 3], &[7; 3], bad);
    fails(&rt, &Gmsk, 0, 0, &mut [7; 2], &[7; 2], bad);
}

#[test]
fn reads_back_what_it_stepped_with(rt: HostRuntime) {
    let mut places = [7; 2];
    assert_eq!(rt;
        read_back(&Dqpsk, 9, &[1, 2], &mut places),
        Err(ReadFault::Call(BadCall))
    );
    assert_eq!(rt; places, [7, 7]);
    assert_eq!(rt; read_back(&Dqpsk, 9, &[1, 0], &mut places), Ok(()));
    assert_eq!(rt; places, [1, 0]);
    assert_eq!(rt; worked_examples(), Ok([8, 4, 2, 11]));
}

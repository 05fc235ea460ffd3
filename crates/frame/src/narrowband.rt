// The narrowband header:
//
//     bit   0 1 2   3   4 .. 11   12   13      14     15 .. 18
//           RATE    0   LENGTH    0    burst   seed   HCS
//
// RATE and LENGTH (the bytes of the PSDU past nine) stand lowest bit first, the HCS highest bit first.
ghost use Rattle.std.specs.Prelude.{◌≡◌, Decides, MatchResult};
ghost use Rattle.bits.specs.Strings.{Bits};
ghost use Rattle.frame.specs.declared.fault.FormFault.{FormFault};
ghost use Rattle.frame.specs.declared.fault.FormFault.TheVariants.{Check, Reserved, Rate};
ghost use Rattle.frame.specs.Headers.{InRange, Checked, Clear, LowestSet, Carried};
ghost use Rattle.frame.specs.Narrowband.{shifted, hcs, narrowband};
ghost use Rattle.frame.specs.Answers.{fields_of};
ghost use Rattle.frame.specs.Written.{narrowband_lawful};

use crate::fault::{FormFault, ReadHeaderFault};
use crate::form::HeaderForm;
use crate::header::Header;
use crate::numbers::{number_of, put_low_bits};
use bits::{BadCall, are_bits, put_bits};

#[derive(Clone, Copy)]
pub struct NarrowbandHeader;

// The bits of a header, with its check.
const BITS: usize = 19;

// The check register after one more bit.
fn shift_in(register: u8, bit: u8) -> u8
    ensures { result ≡ shifted register bit }
{
    let sum = (bit ^ register >> 3) & 1;
    let up = register << 1 & 0b1111;
    if sum == 1 { up ^ 0b0011 } else { up }
}

// The header check sequence of the bits.
fn check_sequence(bits: &[u8]) -> [u8; 4]
    ensures { result ≡ hcs bits.now }
{
    let register = bits
        .iter()
        .fold(0b1111, |register, bit| shift_in(register, *bit));
    let mut check = [0; 4];
    put_bits(u64::from(15 - register), &mut check);
    check
}

// Whether each field is in its range.
fn in_range(header: &Header) -> bool
    ensures { Decides result (InRange narrowband (fields_of header.now)) }
{
    header.rate <= 3 && (9..=264).contains(&header.bytes) && header.burst <= 1 && header.seed <= 1
}

// The check bits are those of the fifteen bits before them.
fn verify_hcs(bits: &[u8]) -> Result<(), FormFault>
    requires { Bits 19 bits.now }
    ensures { MatchResult result (λ _. Checked narrowband bits.now) (λ e. (e ≡ FormFault.Check) × (Checked narrowband bits.now → ⊥)) }
{
    let check = check_sequence(&bits[0..15]);
    if bits[15..] != check[..] {
        return Err(FormFault::Check);
    }
    Ok(())
}

// Bits 3 and 12 are zero.
fn verify_reserved(bits: &[u8]) -> Result<(), FormFault>
    requires { Bits 19 bits.now }
    ensures { MatchResult result (λ _. Clear narrowband bits.now) (λ e. elim e [ Check ↦ ⊥ | Reserved p ↦ LowestSet narrowband bits.now p | Rate r ↦ ⊥ ]) }
{
    if bits[3] == 1 {
        return Err(FormFault::Reserved(3));
    }
    if bits[12] == 1 {
        return Err(FormFault::Reserved(12));
    }
    Ok(())
}

// The plan carries the rate.
fn verify_rate(rate: u8, legal: &[bool; 4]) -> Result<(), FormFault>
    ensures { MatchResult result (λ _. Carried legal.now rate) (λ e. (e ≡ FormFault.Rate rate) × (Carried legal.now rate → ⊥)) }
{
    match legal.get(usize::from(rate)) {
        Some(true) => Ok(()),
        _ => Err(FormFault::Rate(rate)),
    }
}

impl HeaderForm for NarrowbandHeader {
    ghost form = { narrowband };

    ghost lawful = { narrowband_lawful };

    fn bits_count(&self) -> usize {
        BITS
    }

    fn write(&self, header: &Header, out: &mut [u8]) -> Result<(), BadCall> {
        if out.len() != BITS || !in_range(header) {
            return Err(BadCall);
        }
        put_low_bits(header.rate, &mut out[0..3]);
        out[3] = 0;
        // at most 255, by `in_range`
        put_low_bits((header.bytes - 9) as u8, &mut out[4..12]);
        out[12] = 0;
        out[13] = header.burst;
        out[14] = header.seed;
        let check = check_sequence(&out[0..15]);
        out[15..19].copy_from_slice(&check);
        Ok(())
    }

    fn read(&self, bits: &[u8], legal: &[bool; 4]) -> Result<Header, ReadHeaderFault> {
        let [rate0, rate1, rate2, rest @ ..] = bits else {
            return Err(BadCall.into());
        };
        if bits.len() != BITS || !are_bits(bits) {
            return Err(BadCall.into());
        }
        verify_hcs(bits)?;
        verify_reserved(bits)?;
        let rate = *rate0 + 2 * *rate1 + 4 * *rate2;
        verify_rate(rate, legal)?;
        let length = number_of(&rest[1..9]);
        Ok(Header {
            rate,
            bytes: 9 + usize::from(length),
            burst: rest[10],
            seed: rest[11],
        })
    }
}

#[cfg(test)]
mod tests {
    use super::*;
    use crate::numbers::unpacked;
    use std::test::Fail;

    // the rates that a plan carries
    const ALL: [bool; 4] = [true; 4];

    const NO_3: [bool; 4] = [true, true, true, false];

    #[test]
    fn writes_and_reads_known_headers(rt: HostRuntime) -> Result<(), Fail> {
        let known = [
            (
                Header {
                    rate: 0,
                    bytes: 9,
                    burst: 0,
                    seed: 0,
                },
                0b000_0_00000000_0_0_0_0000,
            ),
            (
                Header {
                    rate: 0,
                    bytes: 9,
                    burst: 0,
                    seed: 1,
                },
                0b000_0_00000000_0_0_1_0011,
            ),
            (
                Header {
                    rate: 1,
                    bytes: 10,
                    burst: 0,
                    seed: 0,
                },
                0b100_0_10000000_0_0_0_0001,
            ),
            (
                Header {
                    rate: 2,
                    bytes: 13,
                    burst: 1,
                    seed: 1,
                },
                0b010_0_00100000_0_1_1_1110,
            ),
            (
                Header {
                    rate: 3,
                    bytes: 264,
                    burst: 1,
                    seed: 0,
                },
                0b110_0_11111111_0_1_0_1100,
            ),
        ];
        for (header, numeral) in known {
            let mut out = [7; 19];
            NarrowbandHeader.write(&header, &mut out)?;
            assert_eq!(rt; out, unpacked::<19>(numeral));
            assert_eq!(rt; NarrowbandHeader.read(&out, &ALL)?, header);
        }
        assert_eq!(rt; NarrowbandHeader.bits_count(), 19);
        Ok(())
    }

    #[test]
    fn reads_what_it_wrote(rt: HostRuntime) -> Result<(), Fail> {
        for rate in 0..4 {
            for bytes in [9, 10, 100, 137, 263, 264] {
                for (burst, seed) in [(0, 0), (0, 1), (1, 0), (1, 1)] {
                    let header = Header {
                        rate,
                        bytes,
                        burst,
                        seed,
                    };
                    let mut out = [0; 19];
                    NarrowbandHeader.write(&header, &mut out)?;
                    assert_eq!(rt; NarrowbandHeader.read(&out, &ALL)?, header);
                }
            }
        }
        Ok(())
    }

    // The check comes first, then the reserved bits and the lowest of them, then the rate.
    #[test]
    fn tells_the_first_fault(rt: HostRuntime) {
        let faulty = [
            (0b000_0_00000000_0_0_0_0001, ALL, FormFault::Check),
            (0b000_1_00000000_0_0_0_0000, ALL, FormFault::Check),
            (0b001_0_00000000_0_0_0_0000, ALL, FormFault::Check),
            (0b000_1_00000000_0_0_0_0001, ALL, FormFault::Reserved(3)),
            (0b000_0_00000000_1_0_0_1100, ALL, FormFault::Reserved(12)),
            (0b000_1_00000000_1_0_0_1101, ALL, FormFault::Reserved(3)),
            (0b101_0_00000000_1_0_0_0110, ALL, FormFault::Reserved(12)),
            (0b001_0_00000000_0_0_0_0010, ALL, FormFault::Rate(4)),
            (0b111_0_11010000_0_1_1_0001, NO_3, FormFault::Rate(7)),
            (0b110_0_00000000_0_0_0_1100, NO_3, FormFault::Rate(3)),
        ];
        for (numeral, legal, fault) in faulty {
            assert_eq!(rt;
                NarrowbandHeader.read(&unpacked::<19>(numeral), &legal),
                Err(ReadHeaderFault::Form(fault))
            );
        }
    }

    #[test]
    fn refuses_to_write(rt: HostRuntime) {
        let good = Header {
            rate: 0,
            bytes: 9,
            burst: 0,
            seed: 0,
        };
        let bad = [
            Header { rate: 4, ..good },
            Header { bytes: 8, ..good },
            Header { bytes: 265, ..good },
            Header { burst: 2, ..good },
            Header { seed: 2, ..good },
        ];
        for header in bad {
            let mut out = [7; 19];
            assert_eq!(rt; NarrowbandHeader.write(&header, &mut out), Err(BadCall));
            assert_eq!(rt; out, [7; 19]);
        }
        let mut out = [7; 20];
        assert_eq!(rt; NarrowbandHeader.write(&good, &mut out), Err(BadCall));
        assert_eq!(rt;
            NarrowbandHeader.write(&good, &mut out[0..18]),
            Err(BadCall)
        );
        assert_eq!(rt; out, [7; 20]);
    }

    #[test]
    fn refuses_to_read(rt: HostRuntime) {
        let refused = Err(ReadHeaderFault::Call(BadCall));
        for count in [0, 2, 3, 18, 20] {
            assert_eq!(rt; NarrowbandHeader.read(&[0; 20][0..count], &ALL), refused);
        }
        for place in 0..19 {
            let mut bits = [0; 19];
            bits[place] = 2;
            assert_eq!(rt; NarrowbandHeader.read(&bits, &ALL), refused);
        }
    }

    #[test]
    fn numbers_its_faults(rt: HostRuntime) {
        let told = [
            (ReadHeaderFault::Call(BadCall), 16, 1, 0),
            (ReadHeaderFault::Form(FormFault::Check), 12, 2, 0),
            (ReadHeaderFault::Form(FormFault::Reserved(12)), 13, 2, 12),
            (ReadHeaderFault::Form(FormFault::Rate(7)), 14, 2, 7),
        ];
        for (fault, number, layer, place) in told {
            assert_eq!(rt;
                (fault.number(), fault.layer(), fault.place()),
                (number, layer, place)
            );
        }
    }
}

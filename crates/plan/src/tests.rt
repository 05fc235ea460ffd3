use super::*;
use bits::BadCall;
use delivery::Fault;
use mode::carrier::Carrier;
use std::test::Fail;

// The symbols of 72 payload bits, at rates 0 to 3.
const LOWER: [Option<usize>; 4] = [Some(192), Some(96), Some(48), Some(32)];

const GMSK: [Option<usize>; 4] = [Some(192), Some(96), Some(72), None];

const UPPER: [Option<usize>; 4] = [Some(384), Some(192), Some(96), Some(48)];

// The bands in order: last channel, start symbol, the symbols of a header, and of a payload.
const BANDS: [(u32, u8, usize, [Option<usize>; 4]); 7] = [
    (9, 4, 62, LOWER),
    (13, 0, 62, GMSK),
    (11, 4, 62, LOWER),
    (47, 4, 62, LOWER),
    (11, 4, 62, LOWER),
    (37, 4, 124, UPPER),
    (78, 4, 124, UPPER),
];

// How many symbols 72 bits take, unless the rate is reserved.
fn symbols(mode: Option<BandMode>) -> Result<Option<usize>, BadCall> {
    mode.map(|mode| mode.symbol_count(72)).transpose()
}

#[test]
fn has_seven_bands(rt: HostRuntime) -> Result<(), Fail> {
    let bands = all_bands();
    for (number, (expected, row)) in (0..7u32).zip(bands.iter().zip(&BANDS)) {
        let (last, start, header, payload) = *row;
        let band = Band::try_from(number)?;
        assert_eq!(rt; band, *expected);
        assert_eq!(rt; band.number(), number);
        assert_eq!(rt; band.last_channel(), last);
        assert_eq!(rt; band.start(), start);
        assert_eq!(rt; band.header().symbol_count(19), Ok(header));
        for (rate, expected) in (0..4u32).zip(payload) {
            assert_eq!(rt; symbols(band.payload(rate)), Ok(expected));
        }
        assert!(rt; band.payload(4).is_none());
    }
    assert_eq!(rt; Band::try_from(7), Err(Fault::Band));
    assert_eq!(rt; Band::try_from(u32::MAX), Err(Fault::Band));
    Ok(())
}

#[test]
fn preambles_go_by_parity(rt: HostRuntime) {
    for channel in 0..10u32 {
        let bits = Band::Mhz402.preamble(channel);
        let first = if channel % 2 == 0 {
            [0, 1, 0, 1, 0, 1, 1, 0]
        } else {
            [0, 1, 1, 0, 1, 0, 0, 0]
        };
        assert_eq!(rt; &bits[0..8], &first[0..8]);
        assert_eq!(rt; &bits[57..66], &[1, 1, 1, 1, 1, 1, 0, 1, 0][0..9]);
    }
}

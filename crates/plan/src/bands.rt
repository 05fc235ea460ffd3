// The plans of the seven bands.
ghost use Rattle.plan.specs.Bands.{plan_of};
ghost use Rattle.plan.specs.Lawful.{band_lawful};

use crate::band::Band;
use crate::band_mode::{BandMode, d8psk, dbpsk, dqpsk, gmsk, plain_gmsk};
use crate::preamble::preamble_bits;
use crate::radio::RadioPlan;
use frame::NarrowbandHeader;
use mode::Copies::{Four, One, Two};

impl RadioPlan for Band {
    type Mode = BandMode;

    type Form = NarrowbandHeader;

    ghost plan = { plan_of };

    ghost lawful = { band_lawful };

    fn last_channel(&self) -> u32 {
        match self {
            Band::Mhz402 => 9,
            Band::Mhz420 => 13,
            Band::Mhz863 => 11,
            Band::Mhz902 => 47,
            Band::Mhz950 => 11,
            Band::Mhz2360 => 37,
            Band::Mhz2400 => 78,
        }
    }

    fn header(&self) -> BandMode {
        match self {
            Band::Mhz402 | Band::Mhz863 | Band::Mhz902 | Band::Mhz950 => dbpsk(Two),
            Band::Mhz420 => gmsk(Two),
            Band::Mhz2360 | Band::Mhz2400 => dbpsk(Four),
        }
    }

    fn form(&self) -> NarrowbandHeader {
        NarrowbandHeader
    }

    fn start(&self) -> u8 {
        match self {
            Band::Mhz420 => 0,
            _ => 4,
        }
    }

    fn preamble(&self, channel: u32) -> [u8; 90] {
        preamble_bits(channel)
    }

    fn payload(&self, rate: u32) -> Option<BandMode> {
        let modes = match self {
            Band::Mhz402 | Band::Mhz863 | Band::Mhz902 | Band::Mhz950 => [
                Some(dbpsk(Two)),
                Some(dbpsk(One)),
                Some(dqpsk(One)),
                Some(d8psk(One)),
            ],
            Band::Mhz420 => [
                Some(gmsk(Two)),
                Some(gmsk(One)),
                Some(plain_gmsk(One)),
                None,
            ],
            Band::Mhz2360 | Band::Mhz2400 => [
                Some(dbpsk(Four)),
                Some(dbpsk(Two)),
                Some(dbpsk(One)),
                Some(dqpsk(One)),
            ],
        };
        // 32 bits fit; `From` is not there for them
        *modes.get(rate as usize)?
    }
}

ghost use Rattle.std.specs.Prelude.{◌≡◌};
ghost use Rattle.plan.specs.Bands.{number_of, Numbered};

use delivery::Fault;

// The seven bands, each named by the frequency at which it begins.
#[derive(Clone, Copy, PartialEq, Eq, Debug)]
pub enum Band {
    // 402 to 405 MHz
    Mhz402,
    // 420 to 450 MHz
    Mhz420,
    // 863 to 870 MHz
    Mhz863,
    // 902 to 928 MHz
    Mhz902,
    // 950 to 956 MHz
    Mhz950,
    // 2360 to 2400 MHz
    Mhz2360,
    // 2400 to 2483.5 MHz
    Mhz2400,
}

impl TryFrom<u32> for Band {
    type Error = Fault;

    ghost try_from_gives = { Numbered };

    // The band of a number, 0 to 6.
    fn try_from(number: u32) -> Result<Band, Fault> {
        match number {
            0 => Ok(Band::Mhz402),
            1 => Ok(Band::Mhz420),
            2 => Ok(Band::Mhz863),
            3 => Ok(Band::Mhz902),
            4 => Ok(Band::Mhz950),
            5 => Ok(Band::Mhz2360),
            6 => Ok(Band::Mhz2400),
            _ => Err(Fault::Band),
        }
    }
}

impl Band {
    // The band of a number, 0 to 6: the conversion above, by name.
    pub fn new(number: u32) -> Result<Band, Fault>
        ensures { Numbered number result }
    {
        Band::try_from(number)
    }

    // Its number, 0 to 6.
    pub fn number(&self) -> u32
        ensures { result ≡ number_of self.now }
    {
        *self as u32
    }
}

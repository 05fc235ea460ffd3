ghost use Rattle.std.specs.Prelude.{◌≡◌};
ghost use Rattle.mode.specs.Chains.{copy_count, Copied};

use bits::BadCall;

// How many copies of each coded bit go out.
#[derive(Clone, Copy, PartialEq, Eq, Debug)]
pub enum Copies {
    One,
    Two,
    Four,
}

impl Copies {
    // So many copies, 1, 2 or 4: the conversion below, by name.
    pub fn new(count: usize) -> Result<Copies, BadCall>
        ensures { Copied count result }
    {
        Copies::try_from(count)
    }

    pub fn count(&self) -> usize
        ensures { result ≡ copy_count self.now }
    {
        match self {
            Copies::One => 1,
            Copies::Two => 2,
            Copies::Four => 4,
        }
    }
}

// So many copies: 1, 2 or 4.
impl TryFrom<usize> for Copies {
    type Error = BadCall;

    ghost try_from_gives = { Copied };

    fn try_from(count: usize) -> Result<Copies, BadCall> {
        match count {
            1 => Ok(Copies::One),
            2 => Ok(Copies::Two),
            4 => Ok(Copies::Four),
            _ => Err(BadCall),
        }
    }
}

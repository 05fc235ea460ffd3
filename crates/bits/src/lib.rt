// Bit strings, and the answer to a call with arguments that no rule covers.
#![tactic(auto)]

pub mod bad_call;

ghost use Rattle.std.specs.Prelude.{◌≡◌, ◌≤◌, Decides, length};
ghost use Rattle.std.specs.Int.Digits.{number_from_digits};
ghost use Rattle.std.specs.List.{AllByRecursion};
ghost use Rattle.std.specs.Result.{OkIff};
ghost use Rattle.bits.specs.Strings.{Bit, Bits, bits_of};
ghost use Rattle.bits.specs.Refusals.{number, layer, place};

pub use bad_call::BadCall;

impl BadCall {
    pub fn number(&self) -> u16
        ensures { result ≡ number self.now }
    {
        16
    }

    pub fn layer(&self) -> u16
        ensures { result ≡ layer self.now }
    {
        1
    }

    pub fn place(&self) -> u16
        ensures { result ≡ place self.now }
    {
        0
    }
}

// Whether every number of the slice is a bit.
pub fn are_bits(xs: &[u8]) -> bool
    ensures { Decides result (AllByRecursion Bit xs.now) }
{
    // a `for`, since `all` takes twice as long over many numbers
    for x in xs {
        if *x > 1 {
            return false;
        }
    }
    true
}

// Whether the slice is a string of n bits.
pub fn is_string(xs: &[u8], n: usize) -> bool
    ensures { Decides result (Bits n xs.now) }
{
    xs.len() == n && are_bits(xs)
}

// Fills the places with the low bits of a number, the highest of them first.
pub fn put_bits(number: u64, places: &mut [u8])
    ensures { places.new ≡ bits_of (length places.old) number }
{
    let count = places.len();
    for (i, place) in places.iter_mut().enumerate() {
        let shift = count - 1 - i;
        let bit = if shift < 64 { number >> shift & 1 } else { 0 };
        // one bit: the cast loses nothing
        *place = bit as u8;
    }
}

// The number that at most 64 bits write, the first bit the highest.
pub fn number_of(bits: &[u8]) -> Result<u64, BadCall>
    ensures { OkIff result ((length bits.now ≤ 64) × AllByRecursion Bit bits.now) (number_from_digits 2 bits.now) }
{
    if bits.len() > 64 || !are_bits(bits) {
        return Err(BadCall);
    }
    Ok(
        bits.iter()
            .fold(0, |number, bit| number << 1 | u64::from(*bit)),
    )
}

#[cfg(test)]
mod tests {
    use super::*;

    #[test]
    fn tells_bits_from_other_numbers(rt: HostRuntime) {
        assert!(rt; are_bits(&[]));
        assert!(rt; are_bits(&[0, 1, 1, 0]));
        assert!(rt; !are_bits(&[2]));
        assert!(rt; !are_bits(&[0, 1, 0, 255]));
        assert!(rt; is_string(&[0, 1, 1], 3));
        assert!(rt; !is_string(&[0, 1, 1], 4));
        assert!(rt; !is_string(&[0, 2, 1], 3));
    }

    #[test]
    fn writes_and_reads_numbers(rt: HostRuntime) {
        let mut places = [7; 5];
        put_bits(0b100110, &mut places);
        assert_eq!(rt; places, [0, 0, 1, 1, 0]);
        assert_eq!(rt; number_of(&places), Ok(6));
        assert_eq!(rt; number_of(&[]), Ok(0));
        assert_eq!(rt; number_of(&[1, 2]), Err(BadCall));
        let mut long = [7; 66];
        put_bits(u64::MAX, &mut long);
        assert!(rt; long[0] == 0 && long[1] == 0 && long[2] == 1 && long[65] == 1);
        assert_eq!(rt; number_of(&long), Err(BadCall));
        assert_eq!(rt; number_of(&long[2..66]), Ok(u64::MAX));
    }

    #[test]
    fn a_bad_call_is_refusal_16(rt: HostRuntime) {
        assert_eq!(rt; BadCall.number(), 16);
        assert_eq!(rt; BadCall.layer(), 1);
        assert_eq!(rt; BadCall.place(), 0);
    }
}

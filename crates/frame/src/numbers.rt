// Numbers as bits, lowest first.
ghost use Rattle.std.specs.Prelude.{◌≡◌, ◌≤◌, length};
ghost use Rattle.std.specs.List.{AllByRecursion};
ghost use Rattle.bits.specs.Strings.{Bit};
ghost use Rattle.frame.specs.Numbers.{low_bits, number_of};

// Fills the places with the number's lowest bits.
pub(crate) fn put_low_bits(number: u8, places: &mut [u8])
    requires { length places.old ≤ 8 }
    ensures { places.new ≡ low_bits (length places.old) number }
{
    for (i, place) in places.iter_mut().enumerate() {
        *place = (number >> i) & 1;
    }
}

// The number that the bits make.
pub(crate) fn number_of(bits: &[u8]) -> u8
    requires few { length bits.now ≤ 8 }
    requires valid { AllByRecursion Bit bits.now }
    ensures { result ≡ number_of bits.now }
{
    bits.iter().rev().fold(0, |number, bit| number << 1 | bit)
}

// The last N bits of a numeral, as it is written.
#[cfg(test)]
pub(crate) fn unpacked<const N: usize>(numeral: u64) -> [u8; N] {
    let mut bits = [0; N];
    bits::put_bits(numeral, &mut bits);
    bits
}

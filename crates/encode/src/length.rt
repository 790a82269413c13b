// A length in base 128, as it stands before the first of two names.
ghost use Rattle.std.specs.Prelude.{◌≡◌};
ghost use Rattle.codec.specs.Lengths.{digits};

use arrayvec::ArrayVec;

// A length's digits: there are ten at most.
pub(crate) fn digits(length: usize) -> ArrayVec<u8, 10>
    ensures { result.items ≡ digits length }
{
    let mut digits = ArrayVec::new();
    let mut left = length;
    while 128 <= left {
        digits.push(128 + (left % 128) as u8);
        left /= 128;
    }
    digits.push(left as u8);
    digits
}

// A length in base 128, as it stands before the first of two names.
ghost use Rattle.std.specs.Prelude.{◌≡◌, ◌<◌, ◌≤◌, length, MatchOption};
ghost use Rattle.codec.specs.Lengths.{high, value, up_to};

// Where the last digit stands, if there is one: all before it have 128 added.
pub(crate) fn last_digit(bytes: &[u8]) -> Option<usize>
    ensures { MatchOption result (length bytes.now ≤ high bytes.now) (λ i. (i ≡ high bytes.now) × (i < length bytes.now)) }
{
    bytes.iter().position(|digit| *digit < 128)
}

// What digits stand for, where it is no more than `most`. From the last digit down: a value that does not fit is more, however
// few digits are left.
pub(crate) fn value_of(digits: &[u8], most: usize) -> Option<usize>
    ensures { result ≡ up_to most (value digits.now) }
{
    let mut value: usize = 0;
    for digit in digits.iter().rev() {
        value = value
            .checked_mul(128)?
            .checked_add(usize::from(digit % 128))?;
    }
    (value <= most).then_some(value)
}

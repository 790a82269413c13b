// Numbers in bytes.
ghost use Rattle.std.specs.Prelude.{◌≡◌, ◌≢◌, ◌<◌, ◌≤◌, length, drop, MatchOption};
ghost use Rattle.codec.specs.Numbers.{from_le8};

// The number that bytes begin with, and what follows its eight bytes.
pub(crate) fn split_number(bytes: &[u8]) -> Option<(u64, &[u8])>
    ensures { MatchOption result (length bytes.now < 8)
        (λ parts. (8 ≤ length bytes.now) × (parts.0 ≡ from_le8 bytes.now) × (parts.1.now ≡ drop 8 bytes.now)) }
{
    let (number, rest) = bytes.split_first_chunk::<8>()?;
    Some((u64::from_le_bytes(*number), rest))
}

// The number that just eight bytes are.
pub(crate) fn number_alone(bytes: &[u8]) -> Option<u64>
    ensures { MatchOption result (length bytes.now ≢ 8) (λ number. (length bytes.now ≡ 8) × (number ≡ from_le8 bytes.now)) }
{
    <[u8; 8]>::try_from(bytes).ok().map(u64::from_le_bytes)
}

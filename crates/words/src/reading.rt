// The states through which a word is read, byte by byte.
ghost use Rattle.std.specs.Prelude.{◌≡◌, ◌<◌, ◌++◌, replicate, IfSome, OnOk};
ghost use Rattle.words.specs.Words.{plain, hex_value, begin, escaped as escaped_of, next as next_of, added, whole};
ghost use Rattle.words.specs.declared.reading.Reading.TheVariants.{Count};

use crate::{is_digit, one_more};
use std::alloc::AllocError;

// What was read of a word so far.
#[derive(Clone, Copy)]
pub enum Reading {
    // nothing
    Begun,
    // `\-`, the word for no bytes
    Empty,
    // last a byte, which may be repeated
    Byte(u8),
    // last a repetition, of a byte and how many times it stands
    Repeated(u8, u64),
    // `\` at the beginning
    EscapeFirst,
    // `\` after a byte
    EscapeByte(u8),
    // `\` after a repetition
    EscapeLast,
    // `\x`
    High,
    // `\x` and the first digit's value
    Low(u8),
    // `\{` after a byte
    Open(u8),
    // `\{` after a byte, and a number so far
    Count(u8, u64),
}

// Does the byte stand for itself?
pub(crate) fn is_plain(b: u8) -> bool
    ensures { result ≡ plain b }
{
    b.is_ascii_graphic() && b != b'\\'
}

fn hex_digit(b: u8) -> Option<u8>
    ensures value { result ≡ hex_value b }
    ensures small { IfSome result (λ v. v < 16) }
{
    match b {
        b'0'..=b'9' => Some(b - b'0'),
        b'a'..=b'f' => Some(b - b'a' + 10),
        _ => None,
    }
}

// Where a byte of the word may begin, or `\`, which leads to the state `escape`.
fn first(b: u8, escape: Reading) -> Option<Reading>
    ensures { result ≡ begin b escape }
{
    if b == b'\\' {
        return Some(escape);
    }
    is_plain(b).then_some(Reading::Byte(b))
}

// After `\`, where it may only go on with `x`.
fn escaped(b: u8) -> Option<Reading>
    ensures { result ≡ escaped_of b }
{
    (b == b'x').then_some(Reading::High)
}

// A repetition's number goes on with a digit, or ends.
fn count_on(x: u8, n: u64, b: u8) -> Option<Reading>
    ensures { result ≡ next_of (Count x n) b }
{
    if is_digit(b) {
        return one_more(n, b).map(|m| Reading::Count(x, m));
    }
    (b == b'}' && n != 0).then_some(Reading::Repeated(x, n))
}

// The bytes, and a byte so many times after them.
fn put(bytes: &mut Vec<u8>, b: u8, times: usize) -> Result<(), AllocError>
    ensures { OnOk result (bytes.new.items ≡ bytes.old.items ++ replicate times b) }
{
    bytes.reserve(times)?;
    bytes.resize(bytes.len() + times, b)
}

impl Reading {
    // The state after one byte more, if a word may go on so.
    pub(crate) fn next(self, b: u8) -> Option<Reading>
        ensures { result ≡ next_of self b }
    {
        match self {
            Reading::Begun => first(b, Reading::EscapeFirst),
            Reading::Empty => None,
            Reading::Byte(x) => first(b, Reading::EscapeByte(x)),
            Reading::Repeated(_, _) => first(b, Reading::EscapeLast),
            Reading::EscapeFirst if b == b'-' => Some(Reading::Empty),
            Reading::EscapeByte(x) if b == b'{' => Some(Reading::Open(x)),
            Reading::EscapeFirst | Reading::EscapeByte(_) | Reading::EscapeLast => escaped(b),
            Reading::High => hex_digit(b).map(|v| Reading::Low(v)),
            Reading::Low(h) => hex_digit(b).map(|v| Reading::Byte(h % 16 * 16 + v)),
            Reading::Open(x) if is_digit(b) => Some(Reading::Count(x, u64::from(b - b'0'))),
            Reading::Open(_) => None,
            Reading::Count(x, n) => count_on(x, n, b),
        }
    }

    // Puts the bytes that are added where the state is come to after those that are there.
    pub(crate) fn add_to(self, bytes: &mut Vec<u8>) -> Result<(), AllocError>
        ensures { OnOk result (bytes.new.items ≡ bytes.old.items ++ added self) }
    {
        match self {
            Reading::Byte(x) => bytes.push(x)?,
            Reading::Repeated(x, n) => put(bytes, x, n.saturating_sub(1) as usize)?,
            _ => {}
        }
        Ok(())
    }

    // May the word end here?
    pub(crate) fn is_whole(self) -> bool
        ensures { result ≡ whole self }
    {
        matches!(
            self,
            Reading::Empty | Reading::Byte(_) | Reading::Repeated(_, _)
        )
    }
}

// Words and numbers as text: any bytes as a word of printable ASCII, numbers in decimal, read and printed.
// specs/Words.antt, Numbers.antt and Printed.antt say what they are.
#![tactic(auto)]

ghost use Rattle.std.specs.Prelude.{◌≡◌, ◌≤◌, length, drop, IfOk, Some};
ghost use Rattle.words.specs.Law.{WordsComeBack, NumbersComeBack, WordsArePrintable};
ghost use Rattle.words.specs.Messages.{unread_text};
ghost use Rattle.words.specs.Numbers.{digit, more, read_number};
ghost use Rattle.words.specs.Outcome.{Told};
ghost use Rattle.words.specs.Words.{read_word};
ghost use Rattle.words.specs.declared.Unread.TheVariants.{NoMemory};

use std::alloc::{AllocError, AllocFailed, Global};
use std::error::Error;
use std::fmt;

pub mod printing;
mod reading;

use reading::Reading;

// Why bytes could not be read.
#[derive(Clone, Copy, Debug, PartialEq, Eq)]
pub enum Unread {
    // They cease to be what is read, with so many bytes left there.
    Left(usize),
    NoMemory,
}

impl fmt::Display for Unread {
    ghost output = { λ unread. Some (unread_text unread) };

    fn fmt<W: fmt::Write>(&self, f: &mut fmt::Formatter<W>) -> fmt::Result {
        match self {
            Unread::Left(left) => write!(f, "not read on, with {} bytes left", *left),
            Unread::NoMemory => write!(f, "not enough memory"),
        }
    }
}

impl Error for Unread {}

impl From<AllocError> for Unread {
    ghost from_gives = { λ _ r. r ≡ NoMemory };

    fn from(_e: AllocError) -> Unread {
        Unread::NoMemory
    }
}

impl<T: Drop> From<AllocFailed<T>> for Unread {
    ghost from_gives = { λ _ r. r ≡ NoMemory };

    fn from(_e: AllocFailed<T>) -> Unread {
        Unread::NoMemory
    }
}

// What is left of the text from a place on.
pub fn rest(text: &[u8], at: usize) -> &[u8]
    requires { at ≤ length text.now }
    ensures { result.now ≡ drop at text.now }
{
    &text[at..]
}

pub fn is_digit(b: u8) -> bool
    ensures { result ≡ digit b }
{
    b.is_ascii_digit()
}

// A number with one more digit, unless it is too large.
fn one_more(n: u64, b: u8) -> Option<u64>
    ensures { result ≡ more n b }
{
    n.checked_mul(10)?
        .checked_add(u64::from(b.saturating_sub(b'0')))
}

// The number at the front of the text, and what is left.
pub fn number(text: &[u8]) -> Result<(u64, &[u8]), Unread>
    ensures told { Told (λ p. (p.0, p.1.now)) result (read_number text.now) }
    ensures within { IfOk result (λ p. length p.1.now ≤ length text.now) }
{
    if !text.first().is_some_and(|b| is_digit(*b)) {
        return Err(Unread::Left(text.len()));
    }
    let mut n: u64 = 0;
    let mut left = text;
    while let Some((b, after)) = left.split_first() {
        if !is_digit(*b) {
            break;
        }
        n = one_more(n, *b).ok_or(Unread::Left(left.len()))?;
        left = after;
    }
    Ok((n, left))
}

// The bytes that the word at the front of the text stands for, and what is left.
pub fn word(heap: Global, text: &[u8]) -> Result<(Vec<u8>, &[u8]), Unread>
    ensures { Told (λ p. (p.0.items, p.1.now)) result (read_word text.now) }
{
    let mut bytes = Vec::new(heap);
    let mut state = Reading::Begun;
    let mut left = text;
    while let Some((b, after)) = left.split_first() {
        if *b == b' ' {
            break;
        }
        state = state.next(*b).ok_or(Unread::Left(left.len()))?;
        state.add_to(&mut bytes)?;
        left = after;
    }
    if !state.is_whole() {
        return Err(Unread::Left(left.len()));
    }
    Ok((bytes, left))
}

// What is printed for bytes and for numbers is read back.
#[tactic(auto, using(crate::proofs::Spelled::words_come_back, crate::proofs::Figures::numbers_come_back, crate::proofs::Printable::all_printable))]
pub fn words_come_back()
    ensures words { WordsComeBack }
    ensures numbers { NumbersComeBack }
    ensures printable { WordsArePrintable }
{}

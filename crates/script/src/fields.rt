// The fields of a line, after its verb.
ghost use Rattle.std.specs.Prelude.{◌<◌, [], length, IfOk};
ghost use Rattle.script.specs.Fields.{after as after_byte, ended, number_field, word_field, named_field, one_named, one_number};
ghost use Rattle.script.specs.Fields.{two_numbers, one_word, choice_field, choices as choices_of};
ghost use Rattle.words.specs.Outcome.{Told};

use std::alloc::Global;
use words::{Unread, number, word};

// Which of the things that a block had it has once power is back: 0 is the newest.
#[derive(Clone, Copy, Debug, PartialEq, Eq)]
pub struct Choice {
    pub block: u64,
    pub choice: u64,
}

// What is left after one byte, which has to be this one.
fn after(byte: u8, text: &[u8]) -> Result<&[u8], Unread>
    ensures told { Told (λ t. t.now) result (after_byte byte text.now) }
    ensures shorter { IfOk result (λ t. length t.now < length text.now) }
{
    match text {
        [b, after @ ..] if *b == byte => Ok(after),
        _ => Err(Unread::Left(text.len())),
    }
}

// The line has to end here.
pub(crate) fn end(text: &[u8]) -> Result<(), Unread>
    ensures { Told (λ u. u) result (ended tt text.now) }
{
    if text.is_empty() {
        return Ok(());
    }
    Err(Unread::Left(text.len()))
}

pub(crate) fn next_number(text: &[u8]) -> Result<(u64, &[u8]), Unread>
    ensures told { Told (λ p. (p.0, p.1.now)) result (number_field text.now) }
    ensures shorter { IfOk result (λ p. length p.1.now < length text.now) }
{
    let text = after(b' ', text)?;
    number(text)
}

pub(crate) fn next_word(heap: Global, text: &[u8]) -> Result<(Vec<u8>, &[u8]), Unread>
    ensures { Told (λ p. (p.0.items, p.1.now)) result (word_field text.now) }
{
    let text = after(b' ', text)?;
    word(heap, text)
}

// A directory and a name in it.
pub(crate) fn next_named(heap: Global, text: &[u8]) -> Result<(u64, Vec<u8>, &[u8]), Unread>
    ensures { Told (λ p. (p.0, p.1.items, p.2.now)) result (named_field text.now) }
{
    let (d, text) = next_number(text)?;
    let (n, text) = next_word(heap, text)?;
    Ok((d, n, text))
}

// A directory and a name in it, and the end.
pub(crate) fn one_named(heap: Global, text: &[u8]) -> Result<(u64, Vec<u8>), Unread>
    ensures { Told (λ p. (p.0, p.1.items)) result (one_named text.now) }
{
    let (d, n, text) = next_named(heap, text)?;
    end(text)?;
    Ok((d, n))
}

// One number, and the end.
// kept: the next three differ in the fields before the end, and one form of them would take what each field means as a parameter
pub(crate) fn one_number(text: &[u8]) -> Result<u64, Unread>
    ensures { Told (λ n. n) result (one_number text.now) }
{
    let (n, text) = next_number(text)?;
    end(text)?;
    Ok(n)
}

// Two numbers, and the end.
pub(crate) fn two_numbers(text: &[u8]) -> Result<(u64, u64), Unread>
    ensures { Told (λ p. p) result (two_numbers text.now) }
{
    let (m, text) = next_number(text)?;
    let (n, text) = next_number(text)?;
    end(text)?;
    Ok((m, n))
}

// One word, and the end.
pub(crate) fn one_word(heap: Global, text: &[u8]) -> Result<Vec<u8>, Unread>
    ensures { Told (λ v. v.items) result (one_word text.now) }
{
    let (bytes, text) = next_word(heap, text)?;
    end(text)?;
    Ok(bytes)
}

fn next_choice(text: &[u8]) -> Result<(Choice, &[u8]), Unread>
    ensures told { Told (λ p. (p.0, p.1.now)) result (choice_field text.now) }
    ensures shorter { IfOk result (λ p. length p.1.now < length text.now) }
{
    let (block, text) = next_number(text)?;
    let text = after(b'=', text)?;
    let (choice, text) = number(text)?;
    Ok((Choice { block, choice }, text))
}

// All choices up to the end.
pub(crate) fn choices(heap: Global, text: &[u8]) -> Result<Vec<Choice>, Unread>
    ensures { Told (λ v. v.items) result (choices_of (length text.now) [] text.now) }
{
    let mut all = Vec::new(heap);
    let mut left = text;
    while !left.is_empty() {
        let (choice, after) = next_choice(left)?;
        all.push(choice)?;
        left = after;
    }
    Ok(all)
}

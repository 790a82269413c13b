// Items read back from a journal's words. Nothing is asked of the words: those that are no item are told.
ghost use Rattle.std.specs.Prelude.{◌≡◌, ◌*◌, ◌/◌, ◌%◌, ◌^◌, ◌<◌, ◌≤◌, ◌∷◌, ◌||◌, Bool, None, length, drop, IfSome, MatchOption, ◌==◌};
ghost use Rattle.calls.specs.Kinds.{kind_number};
ghost use Rattle.machine.specs.Journal.{bit_word, name_from, item_from};
ghost use Rattle.journal.specs.Items.{name_read, PlaceRead, change_read, item_read};

use crate::items::{Change, Item};
use crate::names::Name;
use calls::kind::Kind;
use rows::entries::bytes_of;

// Are the bytes after a name's end in its last word zeros?
fn ends_in_zeros(len: usize, last: u64) -> bool
    ensures { result ≡ (len % 8 == 0 || last / 2 ^ (8 * (len % 8)) == 0) }
{
    len % 8 == 0 || last >> (8 * (len % 8)) == 0
}

// The name at the front of some words, and how many it takes.
fn read_name(words: &[u64]) -> Option<(Name, usize)>
    ensures name { name_read result ≡ name_from words.now }
    ensures size { IfSome result (λ x. (2 ≤ x.1) × (x.1 ≤ length words.now)) }
{
    let (first, rest) = words.split_first()?;
    if *first == 0 || 64 < *first {
        return None;
    }
    let len = *first as usize;
    let body = rest.get(..len.div_ceil(8))?;
    if !ends_in_zeros(len, *body.last()?) {
        return None;
    }
    let bytes = bytes_of(body);
    Some((Name { len, bytes }, 1 + body.len()))
}

// A directory and a name in it, at the front of some words, and how many they take.
fn read_place(words: &[u64]) -> Option<(u64, Name, usize)>
    ensures { MatchOption result (name_from (drop 1 words.now) ≡ None) (λ x. PlaceRead x words.now) }
{
    let (dir, rest) = words.split_first()?;
    let (name, size) = read_name(rest)?;
    Some((*dir, name, 1 + size))
}

// A rename, from what follows the kind and the flag of its item, and how many words that takes.
fn read_rename(fields: &[u64]) -> Option<(Change, usize)>
    ensures change { (first : Bool) → change_read first result ≡ item_from (4 ∷ bit_word first ∷ fields.now) }
    ensures size { IfSome result (λ x. (2 ≤ x.1) × (x.1 ≤ length fields.now)) }
{
    let (dir, name, size) = read_place(fields)?;
    let (new_dir, new_name, new_size) = read_place(&fields[size..])?;
    Some((
        Change::Rename(dir, name, new_dir, new_name),
        size + new_size,
    ))
}

// A change of a kind, from what follows the kind and the flag of its item, and how many words that takes.
fn read_change(kind: Kind, fields: &[u64]) -> Option<(Change, usize)>
    ensures change { (first : Bool) → change_read first result ≡ item_from (kind_number kind ∷ bit_word first ∷ fields.now) }
    ensures size { IfSome result (λ x. (2 ≤ x.1) × (x.1 ≤ length fields.now)) }
{
    match kind {
        Kind::Rename => read_rename(fields),
        Kind::Resize => {
            let ([file, places], _) = fields.split_first_chunk::<2>()?;
            Some((Change::Resize(*file, *places), 2))
        }
        _ => {
            let (dir, name, size) = read_place(fields)?;
            let change = Change::named(kind, dir, name)?;
            Some((change, size))
        }
    }
}

// The kind of calls whose number a word is.
fn read_kind(word: u64) -> Option<Kind>
    ensures { MatchOption result (11 < word) (λ kind. kind_number kind ≡ word) }
{
    let number = u8::try_from(word).ok()?;
    Kind::try_from(number).ok()
}

// The flag that a word is.
fn read_flag(word: u64) -> Option<bool>
    ensures { MatchOption result (1 < word) (λ flag. bit_word flag ≡ word) }
{
    match word {
        0 => Some(false),
        1 => Some(true),
        _ => None,
    }
}

// The item at the front of what is left of a journal, and how many words it takes; none where the words are no item.
pub fn read_item(words: &[u64]) -> Option<(Item, usize)>
    ensures item { item_read result ≡ item_from words.now }
    ensures size { IfSome result (λ x. (4 ≤ x.1) × (x.1 ≤ length words.now)) }
{
    let ([kind, flag], fields) = words.split_first_chunk::<2>()?;
    let kind = read_kind(*kind)?;
    let first = read_flag(*flag)?;
    let (change, size) = read_change(kind, fields)?;
    Some((Item { first, change }, 2 + size))
}

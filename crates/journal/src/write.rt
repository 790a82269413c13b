// An item of the journal, put behind those that are there.
ghost use Rattle.std.specs.Prelude.{◌≡◌, ◌+◌, ◌≤◌, ◌∷◌, length, Some, codes, if◌then◌else◌, nat_le, slice_index};
ghost use Rattle.std.specs.Result.{is_ok};
ghost use Rattle.calls.specs.Meaning.{call_of};
ghost use Rattle.machine.specs.Journal.{name_size, name_words, field_words, item_words};
ghost use Rattle.tables.specs.Append.{item_added};
ghost use Rattle.journal.specs.Changing.{Changing, item_size};
ghost use Rattle.journal.specs.Items.{item_of};

use calls::Call;
use rows::keys::name_key;
use std::error::Error;
use std::fmt;

// How many words the journal may have.
const ROOM: usize = 496;

// Where in the superblock the journal's length stands.
const LENGTH: usize = 9;

// Where in the superblock the journal begins.
const START: usize = 16;

// The journal has not so many words left as an item takes.
#[derive(Clone, Copy, Debug, PartialEq, Eq)]
pub struct Full;

impl fmt::Display for Full {
    ghost output = { λ _. Some (codes "the journal has no place for the item") };

    fn fmt<W: fmt::Write>(&self, f: &mut fmt::Formatter<W>) -> fmt::Result {
        f.write_str("the journal has no place for the item")
    }
}

impl Error for Full {}

// How many words a name takes: its length, and one for eight bytes.
fn name_size(name: &[u8]) -> usize
    requires { length name.now ≤ 64 }
    ensures { result ≡ 1 + name_size (length name.now) }
{
    1 + name.len().div_ceil(8)
}

// How many words the item of a changing call takes.
fn item_size(call: Call<'_>) -> usize
    requires { Changing (call_of call) }
    ensures { result ≡ item_size (call_of call.entry) }
{
    match call {
        Call::MakeFile(_, name) | Call::MakeDir(_, name) | Call::Remove(_, name) => {
            3 + name_size(name)
        }
        Call::Rename(_, name, _, new_name) => 4 + name_size(name) + name_size(new_name),
        Call::Resize(_, _) => 4,
        _ => unreachable(),
    }
}

// A directory and a name in it: its id, and the first words of the name's key.
fn put_place(out: &mut [u64], dir: u64, name: &[u8])
    requires name { length name.now ≤ 64 }
    requires room { length out.old ≡ 2 + name_size (length name.now) }
    ensures { out.new ≡ dir ∷ name_words name.now }
{
    out[0] = dir;
    let size = name_size(name);
    out[1..].copy_from_slice(&name_key(name)[..size]);
}

// What follows the kind and the flag in the item of a changing call.
#[tactic(auto, unfolding(machine::specs::Journal::field_words))]
fn put_fields(out: &mut [u64], call: Call<'_>)
    requires call { Changing (call_of call) }
    requires room { 2 + length out.old ≡ item_size (call_of call) }
    ensures { out.new ≡ field_words (call_of call.entry) }
{
    match call {
        Call::MakeFile(dir, name) | Call::MakeDir(dir, name) | Call::Remove(dir, name) => {
            put_place(out, dir, name)
        }
        Call::Rename(dir, name, to, new) => {
            let at = 1 + name_size(name);
            put_place(&mut out[..at], dir, name);
            put_place(&mut out[at..], to, new);
        }
        Call::Resize(file, places) => out.copy_from_slice(&[file, places]),
        _ => unreachable(),
    }
}

// The item of a changing call.
fn put_item(out: &mut [u64], first: bool, call: Call<'_>)
    requires call { Changing (call_of call) }
    requires room { length out.old ≡ item_size (call_of call) }
    ensures { out.new ≡ item_words (item_of first call.entry) }
{
    let kind = call.kind().unwrap();
    out[0] = u64::from(u8::from(kind));
    out[1] = u64::from(first);
    put_fields(&mut out[2..], call);
}

// Puts the item of a changing call behind those that are there and raises the length; where it does not fit, nothing changes.
pub fn append(superblock: &mut [u64], first: bool, call: Call<'_>) -> Result<(), Full>
    requires block { length superblock.old ≡ 512 }
    requires length { slice_index superblock.old 9 ≤ 496 }
    requires call { Changing (call_of call) }
    ensures fits { is_ok result ≡ nat_le (slice_index superblock.old 9 + length (item_words (item_of first call.entry))) 496 }
    ensures words { superblock.new ≡
        (if is_ok result then item_added (item_words (item_of first call.entry)) superblock.old else superblock.old) }
{
    let used = superblock[LENGTH] as usize;
    let size = item_size(call);
    if ROOM < used + size {
        return Err(Full);
    }
    superblock[LENGTH] = (used + size) as u64;
    let at = START + used;
    put_item(&mut superblock[at..at + size], first, call);
    Ok(())
}

// Lines of a script.
ghost use Rattle.std.specs.Prelude.{◌≡◌, Some};
ghost use Rattle.calls.specs.Meaning.{call_of};
ghost use Rattle.script.specs.Lines.{passed as passed_over, read_rename, read_write, read_asked};
ghost use Rattle.script.specs.Lines.{read_limits, read_power, read_fields, read_whole, read_line};
ghost use Rattle.script.specs.Meaning.{asked_of, line_of, LineTold};
ghost use Rattle.script.specs.Messages.{unreadable_text};
ghost use Rattle.words.specs.Outcome.{Told};

use crate::fields::{
    Choice, choices, end, next_named, next_number, next_word, one_named, one_number, one_word,
    two_numbers,
};
use calls::kind::Kind;
use calls::{Call, Limits};
use lines::verb::{Verb, verb_of};
use std::alloc::Global;
use std::error::Error;
use std::fmt;
use words::Unread;

// A call with names of its own.
// kept: `calls::Call` lends its names and may be Garbled; a line's names are decoded from its words, and a line is never garbled
#[derive(Debug, PartialEq, Eq, Drop)]
pub enum Asked {
    Find(u64, Vec<u8>),
    MakeFile(u64, Vec<u8>),
    MakeDir(u64, Vec<u8>),
    Remove(u64, Vec<u8>),
    Rename(u64, Vec<u8>, u64, Vec<u8>),
    List(u64, u64),
    Size(u64),
    Read(u64, u64),
    Write(u64, u64, Vec<u8>),
    Resize(u64, u64),
    SyncFile(u64),
    SyncTree,
}

// What a line says.
#[derive(Debug, PartialEq, Eq, Drop)]
pub enum Line {
    // blank, or a remark
    Nothing,
    Limits(Limits),
    Call(Asked),
    // a call by its bytes
    Bytes(Vec<u8>),
    // once so many acts are done, power goes; what blocks have then
    Power(u64, Vec<Choice>),
}

// Why a line could not be read.
#[derive(Clone, Copy, Debug, PartialEq, Eq)]
pub enum Unreadable {
    // the column, from 1, at which it ceases to be a line
    Column(usize),
    NoMemory,
}

impl fmt::Display for Unreadable {
    ghost output = { λ unreadable. Some (unreadable_text unreadable) };

    fn fmt<W: fmt::Write>(&self, f: &mut fmt::Formatter<W>) -> fmt::Result {
        match self {
            Unreadable::Column(column) => write!(
                f,
                "column {}: no line of a script goes on so",
                *column
            ),
            Unreadable::NoMemory => write!(f, "not enough memory"),
        }
    }
}

impl Error for Unreadable {}

impl Asked {
    // The call, which borrows the names.
    pub fn call(&self) -> Call<'_>
        ensures { call_of result ≡ asked_of self.now }
    {
        match self {
            Asked::Find(d, n) => Call::Find(*d, n.as_slice()),
            Asked::MakeFile(d, n) => Call::MakeFile(*d, n.as_slice()),
            Asked::MakeDir(d, n) => Call::MakeDir(*d, n.as_slice()),
            Asked::Remove(d, n) => Call::Remove(*d, n.as_slice()),
            Asked::Rename(d, n, e, m) => Call::Rename(*d, n.as_slice(), *e, m.as_slice()),
            Asked::List(d, k) => Call::List(*d, *k),
            Asked::Size(i) => Call::Size(*i),
            Asked::Read(i, o) => Call::Read(*i, *o),
            Asked::Write(i, o, b) => Call::Write(*i, *o, b.as_slice()),
            Asked::Resize(i, n) => Call::Resize(*i, *n),
            Asked::SyncFile(i) => Call::SyncFile(*i),
            Asked::SyncTree => Call::SyncTree,
        }
    }
}

fn read_rename(heap: Global, text: &[u8]) -> Result<Asked, Unread>
    ensures { Told asked_of result (read_rename text.now) }
{
    let (d, n, text) = next_named(heap, text)?;
    let (e, m, text) = next_named(heap, text)?;
    end(text)?;
    Ok(Asked::Rename(d, n, e, m))
}

fn read_write(heap: Global, text: &[u8]) -> Result<Asked, Unread>
    ensures { Told asked_of result (read_write text.now) }
{
    let (i, text) = next_number(text)?;
    let (o, text) = next_number(text)?;
    let (b, text) = next_word(heap, text)?;
    end(text)?;
    Ok(Asked::Write(i, o, b))
}

// The fields of a call, up to the end of the line.
fn read_asked(heap: Global, kind: Kind, text: &[u8]) -> Result<Asked, Unread>
    ensures { Told asked_of result (read_asked kind text.now) }
{
    match kind {
        Kind::Find => one_named(heap, text).map(|(d, n)| Asked::Find(d, n)),
        Kind::MakeFile => one_named(heap, text).map(|(d, n)| Asked::MakeFile(d, n)),
        Kind::MakeDir => one_named(heap, text).map(|(d, n)| Asked::MakeDir(d, n)),
        Kind::Remove => one_named(heap, text).map(|(d, n)| Asked::Remove(d, n)),
        Kind::Rename => read_rename(heap, text),
        Kind::List => two_numbers(text).map(|(d, k)| Asked::List(d, k)),
        Kind::Size => one_number(text).map(|i| Asked::Size(i)),
        Kind::Read => two_numbers(text).map(|(i, o)| Asked::Read(i, o)),
        Kind::Write => read_write(heap, text),
        Kind::Resize => two_numbers(text).map(|(i, n)| Asked::Resize(i, n)),
        Kind::SyncFile => one_number(text).map(|i| Asked::SyncFile(i)),
        Kind::SyncTree => end(text).map(|_ended| Asked::SyncTree),
    }
}

fn read_limits(text: &[u8]) -> Result<Line, Unread>
    ensures { Told line_of result (read_limits text.now) }
{
    let (cells, text) = next_number(text)?;
    let (nodes, older) = two_numbers(text)?;
    Ok(Line::Limits(Limits {
        cells,
        nodes,
        older,
    }))
}

fn read_power(heap: Global, text: &[u8]) -> Result<Line, Unread>
    ensures { Told line_of result (read_power text.now) }
{
    let (count, text) = next_number(text)?;
    Ok(Line::Power(count, choices(heap, text)?))
}

fn read_fields(heap: Global, verb: Verb, text: &[u8]) -> Result<Line, Unread>
    ensures { Told line_of result (read_fields verb text.now) }
{
    match verb {
        Verb::Call(kind) => Ok(Line::Call(read_asked(heap, kind, text)?)),
        Verb::Limits => read_limits(text),
        Verb::Bytes => Ok(Line::Bytes(one_word(heap, text)?)),
        Verb::Power => read_power(heap, text),
    }
}

// Is the line blank or a remark?
fn passed(line: &[u8]) -> bool
    ensures { result ≡ passed_over line.now }
{
    matches!(line, [] | [b'#', ..])
}

fn read_whole(heap: Global, line: &[u8]) -> Result<Line, Unread>
    ensures { Told line_of result (read_whole line.now) }
{
    if passed(line) {
        return Ok(Line::Nothing);
    }
    let (verb, text) = verb_of(line)?;
    read_fields(heap, verb, text)
}

// Reads a line.
pub fn read_line(heap: Global, line: &[u8]) -> Result<Line, Unreadable>
    ensures { LineTold result (read_line line.now) }
{
    read_whole(heap, line).map_err(|e| match e {
        Unread::Left(left) => {
            Unreadable::Column(line.len().saturating_sub(left).saturating_add(1))
        }
        Unread::NoMemory => Unreadable::NoMemory,
    })
}

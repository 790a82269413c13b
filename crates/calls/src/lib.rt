// Calls, answers, refusals and limits as the code has them. specs/Meaning.antt says what each stands for in the model.
#![tactic(auto)]

ghost use Rattle.std.specs.Prelude.{◌≡◌, ◌++◌, Some, codes};
ghost use Rattle.std.specs.Fmt.{decimal};
ghost use Rattle.calls.specs.Meaning.{refusal_number, RefusalRead};

use std::error::Error;
use std::fmt;

pub mod answer_kind;
pub mod kind;

// A call: directories and files go by their ids, names are bytes.
#[derive(Clone, Copy, Debug, PartialEq, Eq)]
pub enum Call<'a> {
    // directory, name
    Find(u64, &'a [u8]),
    // directory, name
    MakeFile(u64, &'a [u8]),
    // directory, name
    MakeDir(u64, &'a [u8]),
    // directory, name
    Remove(u64, &'a [u8]),
    // directory, name, new directory, new name
    Rename(u64, &'a [u8], u64, &'a [u8]),
    // directory, which entry
    List(u64, u64),
    // file
    Size(u64),
    // file, place
    Read(u64, u64),
    // file, place, what the place has from now on
    Write(u64, u64, &'a [u8]),
    // file, how many places
    Resize(u64, u64),
    // file
    SyncFile(u64),
    SyncTree,
    // bytes that are no call: where they cease to be one
    // kept: the model has it as a call, with a refusal of its own
    Garbled(u64),
}

// Why a call is refused, in the order in which the reasons are asked.
#[derive(Clone, Copy, Debug, PartialEq, Eq)]
pub enum Refusal {
    // bytes that are no call
    NoCall,
    // a field out of range, or a call that cannot be done
    OutOfRange,
    NoDirectory,
    NoFile,
    // no such name, or no such entry of a directory
    NoEntry,
    // a name that is there already
    NameTaken,
    // a directory that is not empty or would be in itself, or a file and a directory in each other's place
    InTheWay,
    // no room for a node or for places: sync the tree and ask again
    NoRoom,
    // as many older trees as may be: sync the tree and ask again
    TooManyOlder,
    // no such place in a file
    NoPlace,
}

// What a call answers.
#[derive(Clone, Copy, Debug, PartialEq, Eq)]
pub enum Answer<'a> {
    // why, and at which place
    Refused(Refusal, u64),
    Done,
    // an id, or how many places
    Number(u64),
    // name, id
    Entry(&'a [u8], u64),
    Block(&'a [u8]),
}

// The sizes that a volume is opened with: how many cells may be held, how many nodes the newest tree may have, and how many older
// trees there may be.
#[derive(Clone, Copy, Debug, PartialEq, Eq)]
pub struct Limits {
    pub cells: u64,
    pub nodes: u64,
    pub older: u64,
}

// A number that no refusal has.
// kept: an error of its own beside those of the other enums by number, since each says what it is that has no such number
#[derive(Clone, Copy, Debug, PartialEq, Eq)]
pub struct UnknownRefusal(pub u8);

impl From<Refusal> for u8 {
    // Its number in the list of refusals.
    ghost from_gives = { λ refusal r. r ≡ refusal_number refusal };

    fn from(refusal: Refusal) -> u8 {
        match refusal {
            Refusal::NoCall => 1,
            Refusal::OutOfRange => 2,
            Refusal::NoDirectory => 3,
            Refusal::NoFile => 4,
            Refusal::NoEntry => 5,
            Refusal::NameTaken => 6,
            Refusal::InTheWay => 7,
            Refusal::NoRoom => 8,
            Refusal::TooManyOlder => 9,
            Refusal::NoPlace => 10,
        }
    }
}

impl TryFrom<u8> for Refusal {
    type Error = UnknownRefusal;

    // The refusal with a number, if there is one.
    ghost try_from_gives = { RefusalRead };

    fn try_from(number: u8) -> Result<Refusal, UnknownRefusal> {
        match number {
            1 => Ok(Refusal::NoCall),
            2 => Ok(Refusal::OutOfRange),
            3 => Ok(Refusal::NoDirectory),
            4 => Ok(Refusal::NoFile),
            5 => Ok(Refusal::NoEntry),
            6 => Ok(Refusal::NameTaken),
            7 => Ok(Refusal::InTheWay),
            8 => Ok(Refusal::NoRoom),
            9 => Ok(Refusal::TooManyOlder),
            10 => Ok(Refusal::NoPlace),
            _ => Err(UnknownRefusal(number)),
        }
    }
}

impl fmt::Display for UnknownRefusal {
    ghost output = { λ unknown. Some (codes "no refusal has the number " ++ decimal unknown.0) };

    fn fmt<W: fmt::Write>(&self, f: &mut fmt::Formatter<W>) -> fmt::Result {
        write!(f, "no refusal has the number {}", self.0)
    }
}

impl Error for UnknownRefusal {}

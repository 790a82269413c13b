// What is to be done: a call that is not refused, with what was found in the tables. specs/Steps.antt says what each stands for.
use lookup::search::Named;
use rows::nodes::{Kind, Place};

// A rename: the node's old directory, with its place and the entry that names the node; its new directory and name; and the entry
// that goes with its node, where the new name is taken.
#[derive(Clone, Copy, Debug, PartialEq, Eq)]
pub struct Renaming<'a> {
    pub from: u64,
    pub source: Place,
    pub entry: Named,
    pub to: u64,
    pub target: Place,
    pub name: &'a [u8],
    pub replaced: Option<Named>,
}

#[derive(Clone, Copy, Debug, PartialEq, Eq)]
pub enum Step<'a> {
    // the id that was found
    Find(u64),
    // what is made, the place of its directory, and its name
    Make {
        kind: Kind,
        dir: Place,
        name: &'a [u8],
    },
    // the place of the directory, and the entry that goes with its node
    Remove {
        dir: Place,
        entry: Named,
    },
    Rename(Renaming<'a>),
    // a rename to the name that the node has
    SameName,
    // the row of the entry
    List(usize),
    // how many places
    Size(usize),
    // the data block of the place
    Read(u64),
    // the data block of the place, and what it has from now on
    Write {
        to: u64,
        block: &'a [u8],
    },
    // a resize to as many places as there are
    SameSize,
    // the file's place, and how many cells come
    Grow {
        file: Place,
        more: usize,
    },
    // the file's place, and how many cells stay
    Cut {
        file: Place,
        kept: usize,
    },
    // the file's id
    SyncFile(u64),
    SyncTree,
}

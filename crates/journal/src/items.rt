// Items of the journal by value.
ghost use Rattle.std.specs.Prelude.{◌≡◌};
ghost use Rattle.std.specs.Option.{option_map};
ghost use Rattle.calls.specs.Kinds.{kind_number};
ghost use Rattle.calls.specs.Meaning.{call_of};
ghost use Rattle.journal.specs.Items.{name_in, change_in, named_by};

use crate::names::Name;
use calls::Call;
use calls::kind::Kind;

// A call that changes the tree, by value.
// kept: `calls::Call` lends its names, and a journal's words have none to lend
#[derive(Clone, Copy, Debug, PartialEq, Eq)]
pub enum Change {
    // directory, name
    MakeFile(u64, Name),
    // directory, name
    MakeDir(u64, Name),
    // directory, name
    Remove(u64, Name),
    // directory, name, new directory, new name
    Rename(u64, Name, u64, Name),
    // file, how many places
    Resize(u64, u64),
}

// A change, and whether the tree was synced right before it.
#[derive(Clone, Copy, Debug, PartialEq, Eq)]
pub struct Item {
    pub first: bool,
    pub change: Change,
}

impl Change {
    // The call that it is, with its names lent.
    pub fn call(&self) -> Call<'_>
        ensures { call_of result ≡ change_in self.now }
    {
        match self {
            Change::MakeFile(dir, name) => Call::MakeFile(*dir, name.lent()),
            Change::MakeDir(dir, name) => Call::MakeDir(*dir, name.lent()),
            Change::Remove(dir, name) => Call::Remove(*dir, name.lent()),
            Change::Rename(dir, name, to, new) => Call::Rename(*dir, name.lent(), *to, new.lent()),
            Change::Resize(file, places) => Call::Resize(*file, *places),
        }
    }

    // The change of one name that a kind of calls is, if it is one.
    pub(crate) fn named(kind: Kind, dir: u64, name: Name) -> Option<Change>
        ensures { option_map change_in result ≡ named_by (kind_number kind) dir (name_in name) }
    {
        match kind {
            Kind::MakeFile => Some(Change::MakeFile(dir, name)),
            Kind::MakeDir => Some(Change::MakeDir(dir, name)),
            Kind::Remove => Some(Change::Remove(dir, name)),
            Kind::Find
            | Kind::Rename
            | Kind::List
            | Kind::Size
            | Kind::Read
            | Kind::Write
            | Kind::Resize
            | Kind::SyncFile
            | Kind::SyncTree => None,
        }
    }
}

// Which call it is, and the number that bytes have for it.
ghost use Rattle.std.specs.Prelude.{◌≡◌, ◌++◌, Some, codes};
ghost use Rattle.std.specs.Fmt.{decimal};
ghost use Rattle.calls.specs.Kinds.{kind_number, kind_of, KindRead, KindsNumbered};

use crate::Call;
use std::error::Error;
use std::fmt;

#[derive(Clone, Copy, Debug, PartialEq, Eq)]
pub enum Kind {
    Find,
    MakeFile,
    MakeDir,
    Remove,
    Rename,
    List,
    Size,
    Read,
    Write,
    Resize,
    SyncFile,
    SyncTree,
}

// A number that no call has.
// kept: as `UnknownRefusal`, it says what has no such number
#[derive(Clone, Copy, Debug, PartialEq, Eq)]
pub struct UnknownKind(pub u8);

impl From<Kind> for u8 {
    ghost from_gives = { λ kind r. r ≡ kind_number kind };

    fn from(kind: Kind) -> u8 {
        match kind {
            Kind::Find => 0,
            Kind::MakeFile => 1,
            Kind::MakeDir => 2,
            Kind::Remove => 3,
            Kind::Rename => 4,
            Kind::List => 5,
            Kind::Size => 6,
            Kind::Read => 7,
            Kind::Write => 8,
            Kind::Resize => 9,
            Kind::SyncFile => 10,
            Kind::SyncTree => 11,
        }
    }
}

impl TryFrom<u8> for Kind {
    type Error = UnknownKind;

    ghost try_from_gives = { KindRead };

    fn try_from(number: u8) -> Result<Kind, UnknownKind> {
        match number {
            0 => Ok(Kind::Find),
            1 => Ok(Kind::MakeFile),
            2 => Ok(Kind::MakeDir),
            3 => Ok(Kind::Remove),
            4 => Ok(Kind::Rename),
            5 => Ok(Kind::List),
            6 => Ok(Kind::Size),
            7 => Ok(Kind::Read),
            8 => Ok(Kind::Write),
            9 => Ok(Kind::Resize),
            10 => Ok(Kind::SyncFile),
            11 => Ok(Kind::SyncTree),
            _ => Err(UnknownKind(number)),
        }
    }
}

impl fmt::Display for UnknownKind {
    ghost output = { λ unknown. Some (codes "no call has the number " ++ decimal unknown.0) };

    fn fmt<W: fmt::Write>(&self, f: &mut fmt::Formatter<W>) -> fmt::Result {
        write!(f, "no call has the number {}", self.0)
    }
}

impl Error for UnknownKind {}

impl Call<'_> {
    // Which call it is; none for bytes that are no call.
    pub fn kind(&self) -> Option<Kind>
        ensures { result ≡ kind_of self.now }
    {
        match self {
            Call::Find(_, _) => Some(Kind::Find),
            Call::MakeFile(_, _) => Some(Kind::MakeFile),
            Call::MakeDir(_, _) => Some(Kind::MakeDir),
            Call::Remove(_, _) => Some(Kind::Remove),
            Call::Rename(_, _, _, _) => Some(Kind::Rename),
            Call::List(_, _) => Some(Kind::List),
            Call::Size(_) => Some(Kind::Size),
            Call::Read(_, _) => Some(Kind::Read),
            Call::Write(_, _, _) => Some(Kind::Write),
            Call::Resize(_, _) => Some(Kind::Resize),
            Call::SyncFile(_) => Some(Kind::SyncFile),
            Call::SyncTree => Some(Kind::SyncTree),
            Call::Garbled(_) => None,
        }
    }
}

// A call's kind has the number that the model has for the call.
#[tactic(auto, using(crate::proofs::Numbered::numbered))]
pub fn kinds_numbered()
    ensures { KindsNumbered }
{}

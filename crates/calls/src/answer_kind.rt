// Which answer it is, and the number that bytes have for it.
ghost use Rattle.std.specs.Prelude.{◌≡◌, ◌++◌, Some, codes};
ghost use Rattle.std.specs.Fmt.{decimal};
ghost use Rattle.calls.specs.AnswerKinds.{answer_kind_number, answer_kind_of, AnswerKindRead};

use crate::Answer;
use std::error::Error;
use std::fmt;

#[derive(Clone, Copy, Debug, PartialEq, Eq)]
pub enum AnswerKind {
    Refused,
    Done,
    Number,
    Entry,
    Block,
}

// A number that no answer has.
// kept: as `UnknownRefusal`, it says what has no such number
#[derive(Clone, Copy, Debug, PartialEq, Eq)]
pub struct UnknownAnswerKind(pub u8);

impl From<AnswerKind> for u8 {
    ghost from_gives = { λ kind r. r ≡ answer_kind_number kind };

    fn from(kind: AnswerKind) -> u8 {
        match kind {
            AnswerKind::Refused => 0,
            AnswerKind::Done => 1,
            AnswerKind::Number => 2,
            AnswerKind::Entry => 3,
            AnswerKind::Block => 4,
        }
    }
}

impl TryFrom<u8> for AnswerKind {
    type Error = UnknownAnswerKind;

    ghost try_from_gives = { AnswerKindRead };

    fn try_from(number: u8) -> Result<AnswerKind, UnknownAnswerKind> {
        match number {
            0 => Ok(AnswerKind::Refused),
            1 => Ok(AnswerKind::Done),
            2 => Ok(AnswerKind::Number),
            3 => Ok(AnswerKind::Entry),
            4 => Ok(AnswerKind::Block),
            _ => Err(UnknownAnswerKind(number)),
        }
    }
}

impl fmt::Display for UnknownAnswerKind {
    ghost output = { λ unknown. Some (codes "no answer has the number " ++ decimal unknown.0) };

    fn fmt<W: fmt::Write>(&self, f: &mut fmt::Formatter<W>) -> fmt::Result {
        write!(f, "no answer has the number {}", self.0)
    }
}

impl Error for UnknownAnswerKind {}

impl Answer<'_> {
    // Which answer it is.
    pub fn kind(&self) -> AnswerKind
        ensures { result ≡ answer_kind_of self.now }
    {
        match self {
            Answer::Refused(_, _) => AnswerKind::Refused,
            Answer::Done => AnswerKind::Done,
            Answer::Number(_) => AnswerKind::Number,
            Answer::Entry(_, _) => AnswerKind::Entry,
            Answer::Block(_) => AnswerKind::Block,
        }
    }
}

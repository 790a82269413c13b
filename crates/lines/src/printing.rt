// Calls and answers as lines; the line feed is the caller's.
ghost use Rattle.std.specs.Prelude.{Some};
ghost use Rattle.calls.specs.Meaning.{call_of, answer_of};
ghost use Rattle.lines.specs.Printing.{print_call, print_answer};

use crate::verb::Verb;
use calls::{Answer, Call};
use std::fmt;
use std::fmt::Display;
use words::printing::Word;

// A call as a line. Bytes that are no call are an empty line.
#[derive(Clone, Copy, Debug, PartialEq, Eq)]
pub struct CallLine<'a>(pub Call<'a>);

// An answer as a line.
#[derive(Clone, Copy, Debug, PartialEq, Eq)]
pub struct AnswerLine<'a>(pub Answer<'a>);

impl fmt::Display for CallLine<'_> {
    ghost output = { λ line. Some (print_call (call_of line.0)) };

    fn fmt<W: fmt::Write>(&self, f: &mut fmt::Formatter<W>) -> fmt::Result {
        let Some(kind) = self.0.kind() else {
            return Ok(());
        };
        let verb = Verb::Call(kind);
        match self.0 {
            Call::Find(d, n) | Call::MakeFile(d, n) | Call::MakeDir(d, n) | Call::Remove(d, n) => {
                write!(f, "{verb} {d} {}", Word(n))
            }
            Call::Rename(d, n, e, m) => write!(f, "{verb} {d} {} {e} {}", Word(n), Word(m)),
            Call::List(m, n) | Call::Read(m, n) | Call::Resize(m, n) => write!(f, "{verb} {m} {n}"),
            Call::Size(i) | Call::SyncFile(i) => write!(f, "{verb} {i}"),
            Call::Write(i, o, b) => write!(f, "{verb} {i} {o} {}", Word(b)),
            Call::SyncTree => verb.fmt(f),
            Call::Garbled(_) => Ok(()),
        }
    }
}

impl fmt::Display for AnswerLine<'_> {
    ghost output = { λ line. Some (print_answer (answer_of line.0)) };

    fn fmt<W: fmt::Write>(&self, f: &mut fmt::Formatter<W>) -> fmt::Result {
        match self.0 {
            Answer::Refused(refusal, place) => write!(f, "refused {} {place}", u8::from(refusal)),
            Answer::Done => write!(f, "done"),
            Answer::Number(n) => write!(f, "number {n}"),
            Answer::Entry(name, id) => write!(f, "entry {} {id}", Word(name)),
            Answer::Block(bytes) => write!(f, "block {}", Word(bytes)),
        }
    }
}

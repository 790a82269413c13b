// The words with which lines begin.
ghost use Rattle.std.specs.Prelude.{◌≡◌, ◌≤◌, length, Some};
ghost use Rattle.lines.specs.Verbs.{verb_text, common as common_of, verb_among, read_verb};
ghost use Rattle.words.specs.Outcome.{Told};

use calls::kind::Kind;
use std::fmt;
use words::{Unread, rest};

// What a line begins with.
#[derive(Clone, Copy, Debug, PartialEq, Eq)]
pub enum Verb {
    // a call, by its fields
    Call(Kind),
    Limits,
    // a call, by its bytes
    Bytes,
    Power,
}

const VERBS: [Verb; 15] = [
    Verb::Call(Kind::Find),
    Verb::Call(Kind::MakeFile),
    Verb::Call(Kind::MakeDir),
    Verb::Call(Kind::Remove),
    Verb::Call(Kind::Rename),
    Verb::Call(Kind::List),
    Verb::Call(Kind::Read),
    Verb::Call(Kind::Resize),
    Verb::Call(Kind::Size),
    Verb::Call(Kind::SyncFile),
    Verb::Call(Kind::Write),
    Verb::Call(Kind::SyncTree),
    Verb::Limits,
    Verb::Bytes,
    Verb::Power,
];

impl Verb {
    pub fn text(self) -> &'static str
        ensures { result.now ≡ verb_text self }
    {
        match self {
            Verb::Call(Kind::Find) => "find",
            Verb::Call(Kind::MakeFile) => "make-file",
            Verb::Call(Kind::MakeDir) => "make-dir",
            Verb::Call(Kind::Remove) => "remove",
            Verb::Call(Kind::Rename) => "rename",
            Verb::Call(Kind::List) => "list",
            Verb::Call(Kind::Size) => "size",
            Verb::Call(Kind::Read) => "read",
            Verb::Call(Kind::Write) => "write",
            Verb::Call(Kind::Resize) => "resize",
            Verb::Call(Kind::SyncFile) => "sync-file",
            Verb::Call(Kind::SyncTree) => "sync-tree",
            Verb::Limits => "limits",
            Verb::Bytes => "bytes",
            Verb::Power => "power",
        }
    }
}

impl fmt::Display for Verb {
    ghost output = { λ verb. Some (verb_text verb) };

    fn fmt<W: fmt::Write>(&self, f: &mut fmt::Formatter<W>) -> fmt::Result {
        f.write_str(self.text())
    }
}

// How many bytes both begin with.
fn common(a: &[u8], b: &[u8]) -> usize
    ensures value { result ≡ common_of a.now b.now }
    ensures within { result ≤ length b.now }
{
    a.iter().zip(b).take_while(|(x, y)| x == y).count()
}

// The first of some verbs that the line begins with, and what is left.
#[tactic(auto, using(crate::proofs::Choosing::found, crate::proofs::Choosing::missed))]
fn among<'a>(verbs: &[Verb], line: &'a [u8]) -> Result<(Verb, &'a [u8]), Unread>
    ensures { Told (λ p. (p.0, p.1.now)) result (verb_among 0 verbs.now line.now) }
{
    let mut best: usize = 0;
    for verb in verbs {
        let text = verb.text().as_bytes();
        let n = common(text, line);
        if n == text.len() {
            return Ok((*verb, rest(line, n)));
        }
        best = best.max(n);
    }
    Err(Unread::Left(line.len() - best))
}

// The verb that the line begins with, and what is left.
pub fn verb_of(line: &[u8]) -> Result<(Verb, &[u8]), Unread>
    ensures { Told (λ p. (p.0, p.1.now)) result (read_verb line.now) }
{
    among(&VERBS, line)
}

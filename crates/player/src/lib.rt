// Plays a script line by line: takes a line and gives the text to print, or says what is wrong with it.
#![tactic(auto)]

ghost use Rattle.std.specs.Prelude.{◌≡◌, ◌==◌, ◌<◌, false, [], ◌∷◌, ◌++◌, length, position, is_ok, if◌then◌else◌, None as Nil, Some, Ok, nat_eq};
ghost use Rattle.calls.specs.Meaning.{call_of, answer_of};
ghost use Rattle.codec.specs.CallBytes.{read_call};
ghost use Rattle.lines.specs.Printing.{print_answer};
ghost use Rattle.player.specs.Messages.{trouble_text};
ghost use Rattle.player.specs.Played.{stage_answer, AsTheModel, allowed, prints_first, printed, played};
ghost use Rattle.player.specs.Played.{limits_after, waits_if, power_text, Stands, StandsFor, Says, unreadable};
ghost use Rattle.player.specs.Split.{first_line, after_line};
ghost use Rattle.player.specs.declared.Trouble.TheVariants.{NoMemory as OutOfMemory};
ghost use Rattle.script.specs.Lines.{read_line};
ghost use Rattle.script.specs.Meaning.{line_of};

use calls::{Answer, Call, Limits, Refusal};
use decode::read_call;
use lines::printing::AnswerLine;
use script::line::{Line, Unreadable, read_line};
use std::alloc::{AllocError, Global};
use std::error::Error;
use std::fmt;

// Why a line cannot be played.
#[derive(Clone, Copy, Debug, PartialEq, Eq)]
pub enum Trouble {
    // it ceases to be a line at this column, from 1
    Column(usize),
    NoMemory,
    // the limits have to come before it
    NoLimits,
    // there are limits already
    LimitsAgain,
    // limits that this program does not take
    LimitsRange,
}

impl fmt::Display for Trouble {
    ghost output = { λ trouble. Some (trouble_text trouble) };

    fn fmt<W: fmt::Write>(&self, f: &mut fmt::Formatter<W>) -> fmt::Result {
        match self {
            Trouble::Column(column) => write!(f, "{}", Unreadable::Column(*column)),
            Trouble::NoMemory => write!(f, "{}", Unreadable::NoMemory),
            Trouble::NoLimits => write!(f, "a script begins with its limits"),
            Trouble::LimitsAgain => write!(f, "a script has limits only once"),
            Trouble::LimitsRange => write!(
                f,
                "limits are 0 to 64 cells, 1 to 64 nodes and 1 to 16 older trees"
            ),
        }
    }
}

impl Error for Trouble {}

impl From<Unreadable> for Trouble {
    ghost from_gives = { λ e r. r ≡ unreadable e };

    fn from(e: Unreadable) -> Trouble {
        match e {
            Unreadable::Column(column) => Trouble::Column(column),
            Unreadable::NoMemory => Trouble::NoMemory,
        }
    }
}

impl From<AllocError> for Trouble {
    ghost from_gives = { λ _ r. r ≡ OutOfMemory };

    fn from(_e: AllocError) -> Trouble {
        Trouble::NoMemory
    }
}

// A script under way.
#[derive(Drop)]
pub struct Player {
    limits: Option<Limits>,
    // a power line waits for acts
    waiting: bool,
}

// What a call answers. This stage can do none.
fn answer_call(call: &Call<'_>) -> Answer<'static>
    ensures { answer_of result ≡ stage_answer (call_of call.now) }
{
    match call {
        Call::Garbled(place) => Answer::Refused(Refusal::NoCall, *place),
        _ => Answer::Refused(Refusal::OutOfRange, 0),
    }
}

// What a call that is given by its bytes answers.
fn answer_bytes(bytes: &[u8]) -> Answer<'static>
    ensures { answer_of result ≡ stage_answer (read_call bytes.now) }
{
    answer_call(&read_call(bytes))
}

// An answer as a line, with its line feed.
fn answer_line(heap: Global, answer: &Answer<'_>) -> Result<String, Trouble>
    ensures { Says result (Ok (print_answer (answer_of answer.now) ++ (10 ∷ []))) }
{
    Ok(format!(in heap; "{}\n", AnswerLine(*answer))?)
}

// Does this program take such limits?
fn takes(limits: Limits) -> bool
    ensures { result ≡ allowed limits.cells limits.nodes limits.older }
{
    limits.cells <= 64 && (1..=64).contains(&limits.nodes) && (1..=16).contains(&limits.older)
}

impl Player {
    pub fn new() -> Player
        ensures limits { result.limits ≡ Nil }
        ensures waiting { result.waiting ≡ false }
    {
        Player {
            limits: None,
            waiting: false,
        }
    }

    // A line before the limits are known.
    fn begin(&mut self, heap: Global, said: &Line) -> Result<String, Trouble>
        requires { self.old.limits ≡ Nil }
        ensures text { Says result (prints_first (line_of said.now)) }
        ensures limits { self.new.limits ≡ (if is_ok result then limits_after Nil (line_of said.now) else Nil) }
        ensures waiting { self.new.waiting ≡ self.old.waiting }
    {
        match said {
            Line::Nothing => Ok(String::new(heap)),
            Line::Limits(limits) => {
                if !takes(*limits) {
                    return Err(Trouble::LimitsRange);
                }
                self.limits = Some(*limits);
                Ok(String::new(heap))
            }
            _ => Err(Trouble::NoLimits),
        }
    }

    // Power goes once so many acts are done: at once where it is none, else it waits for acts that do not come.
    fn power(&mut self, heap: Global, count: u64) -> Result<String, Trouble>
        ensures text { Says result (Ok (if self.old.waiting then [] else (if nat_eq count 0 then power_text else []))) }
        ensures limits { self.new.limits ≡ self.old.limits }
        ensures waiting { self.new.waiting ≡ waits_if (is_ok result) self.old.waiting count }
    {
        if self.waiting {
            return Ok(String::new(heap));
        }
        if count == 0 {
            return Ok("power\nfound\n".to_string(heap)?);
        }
        self.waiting = true;
        Ok(String::new(heap))
    }

    fn follow(&mut self, heap: Global, said: &Line) -> Result<String, Trouble>
        ensures text { Says result (printed self.old.limits self.old.waiting (line_of said.now)) }
        ensures stands { Stands (is_ok result) self.old self.new (line_of said.now) }
    {
        if self.limits.is_none() {
            return self.begin(heap, said);
        }
        match said {
            Line::Nothing => Ok(String::new(heap)),
            Line::Limits(_) => Err(Trouble::LimitsAgain),
            Line::Call(asked) => answer_line(heap, &answer_call(&asked.call())),
            Line::Bytes(bytes) => answer_line(heap, &answer_bytes(bytes.as_slice())),
            Line::Power(count, _) => self.power(heap, *count),
        }
    }

    // Plays one line: the text to print.
    #[tactic(auto, using(crate::proofs::Standing::as_before))]
    pub fn play(&mut self, heap: Global, line: &[u8]) -> Result<String, Trouble>
        ensures text { Says result (played self.old.limits self.old.waiting line.now) }
        ensures stands { StandsFor (is_ok result) self.old self.new (read_line line.now) }
    {
        let said = read_line(heap, line)?;
        self.follow(heap, &said)
    }
}

// Where the first line feed stands.
fn line_feed(text: &[u8]) -> Option<usize>
    ensures { result ≡ position (λ b. b == 10) text.now }
{
    text.iter().position(|b| *b == b'\n')
}

// The first line of a text, and what comes after its line feed.
#[tactic(auto, using(crate::proofs::Lines::found, crate::proofs::Lines::missing))]
pub fn split_line(text: &[u8]) -> (&[u8], &[u8])
    ensures line { result.0.now ≡ first_line text.now }
    ensures after { result.1.now ≡ after_line text.now }
    ensures shorter { 0 < length text.now → length result.1.now < length text.now }
{
    match line_feed(text) {
        Some(n) => (&text[..n], &text[n + 1..]),
        None => (text, &[]),
    }
}

// A stage that can do no call answers as the model says.
#[tactic(auto, using(crate::proofs::Stage::as_the_model))]
pub fn answers_as_the_model()
    ensures { AsTheModel }
{}

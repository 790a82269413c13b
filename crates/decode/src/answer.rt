// Reading an answer, if the bytes are one.
ghost use Rattle.std.specs.Prelude.{◌≡◌, ◌∷◌};
ghost use Rattle.codec.specs.AnswerBytes.{read_refused, read_answer};
ghost use Rattle.decode.specs.Read.{any_answer};

use crate::parts::{number_alone, split_number};
use calls::answer_kind::AnswerKind;
use calls::{Answer, Refusal};

// A refusal's number and its place.
fn refused(fields: &[u8]) -> Option<Answer<'_>>
    ensures { any_answer result ≡ read_refused (0 ∷ fields.now) }
{
    let (number, place) = fields.split_first()?;
    let refusal = Refusal::try_from(*number).ok()?;
    Some(Answer::Refused(refusal, number_alone(place)?))
}

// The answer that bytes are.
pub fn read_answer(bytes: &[u8]) -> Option<Answer<'_>>
    ensures { any_answer result ≡ read_answer bytes.now }
{
    let (kind, fields) = bytes.split_first()?;
    match AnswerKind::try_from(*kind).ok()? {
        AnswerKind::Refused => refused(fields),
        AnswerKind::Done => fields.is_empty().then_some(Answer::Done),
        AnswerKind::Number => number_alone(fields).map(|number| Answer::Number(number)),
        AnswerKind::Entry => split_number(fields).map(|(id, name)| Answer::Entry(name, id)),
        AnswerKind::Block => Some(Answer::Block(fields)),
    }
}

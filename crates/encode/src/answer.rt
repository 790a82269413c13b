// Writing an answer.
ghost use Rattle.std.specs.Prelude.{◌≡◌};
ghost use Rattle.calls.specs.Meaning.{answer_of};
ghost use Rattle.codec.specs.AnswerBytes.{answer_bytes};
ghost use Rattle.encode.specs.Put.{put};

use crate::parts::put;
use calls::Answer;

// An answer's bytes over the front of `out`, and how many they are, if there is room.
pub fn write_answer(answer: &Answer<'_>, out: &mut [u8]) -> Option<usize>
    ensures { (result, out.new) ≡ put (answer_bytes (answer_of answer.now)) out.old }
{
    let kind = [u8::from(answer.kind())];
    match answer {
        Answer::Refused(refusal, place) => put(
            &[&kind, &[u8::from(*refusal)], &place.to_le_bytes()],
            out,
        ),
        Answer::Done => put(&[&kind], out),
        Answer::Number(number) => put(&[&kind, &number.to_le_bytes()], out),
        Answer::Entry(name, id) => put(&[&kind, &id.to_le_bytes(), name], out),
        Answer::Block(block) => put(&[&kind, block], out),
    }
}

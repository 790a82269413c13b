// Each answer of the table is read from its bytes and written as them, and no more than them. Each front of its bytes, and a
// byte after its end, is as the table says; and what is no answer is none.
use crate::answer_table::{ANSWERS, NO_ANSWERS};
use crate::rows::{Coded, end_is_right, fronts_are_right, wants_room};
use calls::Answer;
use decode::read_answer;
use encode::write_answer;

impl Coded for Answer<'_> {
    fn write(&self, out: &mut [u8]) -> Option<usize> {
        write_answer(self, out)
    }

    fn ceases_at(bytes: &[u8], _place: usize) -> bool {
        read_answer(bytes).is_none()
    }
}

#[test]
fn each_answer(rt: HostRuntime) {
    for row in &ANSWERS {
        assert_eq!(rt; read_answer(row.bytes), Some(row.value), "read");
        assert!(rt; wants_room(row), "written");
        assert!(rt; fronts_are_right(row), "fronts");
        assert!(rt; end_is_right(row), "a byte more");
    }
}

#[test]
fn no_answers(rt: HostRuntime) {
    for bytes in &NO_ANSWERS {
        assert!(rt; read_answer(bytes).is_none());
    }
}

// What the tests ask of each row of a table, be it of calls or of answers.
use arrayvec::ArrayVec;

// A call or an answer, its bytes, the length of their shortest front that is one, and whether it has an end, so that no byte may
// follow it.
pub(crate) struct Row<T> {
    pub value: T,
    pub bytes: &'static [u8],
    pub whole_from: usize,
    pub ends: bool,
}

// What is written as bytes, and read from them.
pub(crate) trait Coded {
    fn write(&self, out: &mut [u8]) -> Option<usize>;

    // Whether bytes are none, and cease to be one at a place.
    fn ceases_at(bytes: &[u8], place: usize) -> bool;
}

// What buffers are filled with before a test.
pub(crate) const UNTOUCHED: u8 = 0xee;

// Whether a value is written as some bytes, and what is after them stays as it was.
pub(crate) fn is_written<T: Coded>(value: &T, bytes: &[u8], out: &mut [u8]) -> bool {
    value.write(out) == Some(bytes.len())
        && out.starts_with(bytes)
        && out.iter().skip(bytes.len()).all(|byte| *byte == UNTOUCHED)
}

// Whether a value is not written, and all stays as it was.
pub(crate) fn is_not_written<T: Coded>(value: &T, out: &mut [u8]) -> bool {
    value.write(out).is_none() && out.iter().all(|byte| *byte == UNTOUCHED)
}

// In just the room that it needs, and in more, a value is written, and in a byte less nothing is.
pub(crate) fn wants_room<T: Coded>(row: &Row<T>) -> bool {
    let n = row.bytes.len();
    0 < n
        && n <= 32
        && is_written(&row.value, row.bytes, &mut [UNTOUCHED; 32])
        && is_written(&row.value, row.bytes, &mut [UNTOUCHED; 32][..n])
        && is_not_written(&row.value, &mut [UNTOUCHED; 32][..n - 1])
}

// A front that is too short is none, from where it ends; a longer one is one, if with a shorter name or block.
pub(crate) fn fronts_are_right<T: Coded>(row: &Row<T>) -> bool {
    (0..row.bytes.len()).all(|k| T::ceases_at(&row.bytes[..k], k) == (k < row.whole_from))
}

// A byte after what has an end is none, from there; else it is a byte more of a name or a block.
pub(crate) fn end_is_right<T: Coded>(row: &Row<T>) -> bool {
    joined::<32>(&[row.bytes, b"a"]).is_some_and(|longer| T::ceases_at(&longer, row.bytes.len())
        == row.ends)
}

// Bytes one after another, if there is room for them.
pub(crate) fn joined<const N: usize>(parts: &[&[u8]]) -> Option<ArrayVec<u8, N>> {
    let mut bytes = ArrayVec::new();
    for part in parts {
        bytes.try_extend_from_slice(part).ok()?;
    }
    Some(bytes)
}

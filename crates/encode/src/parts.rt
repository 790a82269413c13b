// Writing bytes that stand in parts: a kind, numbers, names.
ghost use Rattle.std.specs.Prelude.{◌≡◌, length, flat_map};
ghost use Rattle.codec.specs.Lengths.{up_to};
ghost use Rattle.encode.specs.Put.{put};

// How many bytes the parts are, if there is room for them. Counted off the room, so that nothing overflows.
fn size_within(parts: &[&[u8]], room: usize) -> Option<usize>
    ensures { result ≡ up_to room (length (flat_map (λ part. part.now) parts.now)) }
{
    let mut left = room;
    for part in parts {
        left = left.checked_sub(part.len())?;
    }
    Some(room - left)
}

// The parts one after another over the front of `out`, and how many bytes they are, if there is room.
pub(crate) fn put(parts: &[&[u8]], out: &mut [u8]) -> Option<usize>
    ensures { (result, out.new) ≡ put (flat_map (λ part. part.now) parts.now) out.old }
{
    let size = size_within(parts, out.len())?;
    let mut at = 0;
    for part in parts {
        out[at..at + part.len()].copy_from_slice(part);
        at += part.len();
    }
    Some(size)
}

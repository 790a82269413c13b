// The table of cells, a word each: the number of the data block that a place of a file has.
ghost use Rattle.std.specs.Prelude.{◌≡◌, ◌+◌, ◌<◌, length, slice_index};

// The data block of a file's place, where the file's cells begin at `begin`.
pub fn block_of(cells: &[u64], begin: usize, place: usize) -> u64
    requires { begin + place < length cells.now }
    ensures { result ≡ slice_index cells.now (begin + place) }
{
    cells[begin + place]
}

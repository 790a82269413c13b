// Any table of words: words put in and taken out.
ghost use Rattle.std.specs.Prelude.{◌≡◌, ◌+◌, ◌≤◌, length, replicate};
ghost use borrow.Rule.Slice.PartMut.{put_mid};
ghost use Rattle.blocks.specs.Words.{part, opened, closed};

// Makes room for n words at a place of a table of which the first `used` are in use: what is in use from there on moves up, and the room
// has what came after the words in use.
pub fn open_words(table: &mut [u64], used: usize, at: usize, n: usize)
    requires place { at ≤ used }
    requires room { used + n ≤ length table.old }
    ensures { table.new ≡ opened used at (part used n table.old) table.old }
{
    table[at..used + n].rotate_right(n);
}

// Puts words in at a place; what is in use from there on moves up.
pub fn insert_words(table: &mut [u64], used: usize, at: usize, words: &[u64])
    requires place { at ≤ used }
    requires room { used + length words.now ≤ length table.old }
    ensures { table.new ≡ opened used at words.now table.old }
{
    open_words(table, used, at, words.len());
    table[at..at + words.len()].copy_from_slice(words);
}

// Takes n words out at a place; what is in use after them moves down, and zeros come in at the end.
pub fn remove_words(table: &mut [u64], used: usize, at: usize, n: usize)
    requires place { at + n ≤ used }
    requires room { used ≤ length table.old }
    ensures { table.new ≡ closed used at n table.old }
{
    table[at..used].rotate_left(n);
    table[used - n..used].fill(0);
}

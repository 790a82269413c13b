// The table of entries, sixteen words each: an entry by its name, and an entry read.
ghost use Rattle.std.specs.Prelude.{◌≡◌, ◌+◌, ◌-◌, ◌*◌, ◌≤◌, length, take, drop, replicate, slice_index, nat_lt, ◌&&◌};
ghost use Rattle.std.specs.List.{flat_map};
ghost use Rattle.blocks.specs.Words.{bytes_of, part};
ghost use Rattle.model.specs.Tree.{same};
ghost use Rattle.tables.specs.Lookup.{entry_id, name_row};
ghost use Rattle.machine.specs.Tables.{entry_from};
ghost use Rattle.rows.specs.Entries.{entry_in};
ghost use Rattle.rows.specs.Found.{found};

// An entry by value: the id that a name is given to, and the name, the first `len` bytes of `name`.
#[derive(Clone, Copy, Debug)]
pub struct Entry {
    pub id: u64,
    pub len: usize,
    pub name: [u8; 64],
}

impl Entry {
    // The bytes of the name.
    pub fn name(&self) -> &[u8]
        requires { self.now.len ≤ 64 }
        ensures { result.now ≡ take self.now.len self.now.name }
    {
        &self.name[0..self.len]
    }
}

// The id that an entry's row has.
pub fn entry_id(entries: &[u64], row: usize) -> u64
    requires { 16 * row + 16 ≤ length entries.now }
    ensures { result ≡ entry_id entries.now row }
{
    entries[16 * row]
}

// The bytes of up to eight words, at the front, and zeros after them.
pub fn bytes_of(words: &[u64]) -> [u8; 64]
    requires { length words.now ≤ 8 }
    ensures bytes { take (8 * length words.now) result ≡ flat_map (bytes_of 8) words.now }
    ensures rest { drop (8 * length words.now) result ≡ replicate (64 - 8 * length words.now) 0 }
{
    let mut bytes = [0; 64];
    // kept: by their places, since no contract says what `chunks_exact_mut` leaves behind
    for (k, word) in words.iter().enumerate() {
        bytes[8 * k..8 * k + 8].copy_from_slice(&word.to_le_bytes());
    }
    bytes
}

// An entry, read from the words of its row.
fn entry_from(row: &[u64]) -> Entry
    requires { 16 ≤ length row.now }
    ensures entry { entry_in result ≡ entry_from row.now }
    ensures len { result.len ≡ slice_index row.now 1 }
{
    Entry {
        id: row[0],
        len: row[1] as usize,
        name: bytes_of(&row[2..10]),
    }
}

// The entry of a row.
pub fn read_entry(entries: &[u64], row: usize) -> Entry
    requires { 16 * row + 16 ≤ length entries.now }
    ensures entry { entry_in result ≡ entry_from (drop (16 * row) entries.now) }
    ensures len { result.len ≡ slice_index entries.now (16 * row + 1) }
{
    entry_from(&entries[16 * row..])
}

// Does a row have the key?
fn has_key(row: &[u64], key: &[u64]) -> bool
    ensures { result ≡ (nat_lt 9 (length row.now) && same key.now (part 1 9 row.now)) }
{
    row.get(1..10) == Some(key)
}

// Which of a directory's `count` entries, from row `first` on, is the first with a key.
pub fn find_name(entries: &[u64], first: usize, count: usize, key: &[u64]) -> Option<usize>
    requires { 16 * (first + count) ≤ length entries.now }
    ensures { result ≡ found count (name_row key.now count first entries.now) }
{
    entries[16 * first..16 * (first + count)]
        .chunks_exact(16)
        .position(|row| has_key(row, key))
}

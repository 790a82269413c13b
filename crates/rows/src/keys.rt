// Names as words: a name's length and its bytes, eight to a word, the first lowest and zeros after the last.
ghost use Rattle.std.specs.Prelude.{◌≡◌, ◌≤◌, length, take, drop, slice_index};
ghost use Rattle.blocks.specs.Words.{le};
ghost use Rattle.machine.specs.Tables.{name_key, entry_row};

// Up to eight bytes as a word.
fn word(bytes: &[u8]) -> u64
    requires { length bytes.now ≤ 8 }
    ensures { result ≡ le bytes.now }
{
    let mut word = [0; 8];
    word[..bytes.len()].copy_from_slice(bytes);
    u64::from_le_bytes(word)
}

// The words by which a name is compared.
pub fn name_key(name: &[u8]) -> [u64; 9]
    requires { length name.now ≤ 64 }
    ensures { result ≡ name_key name.now }
{
    let mut key = [0; 9];
    key[0] = name.len() as u64;
    for (k, bytes) in name.chunks(8).enumerate() {
        key[k + 1] = word(bytes);
    }
    key
}

// The row of an entry.
pub fn entry_row(id: u64, name: &[u8]) -> [u64; 16]
    requires { length name.now ≤ 64 }
    ensures { result ≡ entry_row (record { name = name.entry.now; id = id }) }
{
    let mut row = [0; 16];
    row[0] = id;
    row[1..10].copy_from_slice(&name_key(name));
    row
}

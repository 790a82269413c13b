// Which data blocks are held: maps of bits in words of 64, the lowest bit first.
// kept: a type that carries that they are fewer than 2^32 would have to be made of the plain words at each call, to no other end
#![tactic(auto)]

ghost use Rattle.std.specs.Prelude.{◌≡◌, ◌+◌, ◌*◌, ◌^◌, ◌<◌, ◌≤◌, true, false, length, set, replicate, slice_index_or, slice_set, IfSome};
ghost use Rattle.std.specs.List.{AllByRecursion, slice_get};
ghost use Rattle.blocks.specs.Bits.{bits_of, word_bits};
ghost use Rattle.machine.specs.State.{count_set, free, marked, both};
ghost use Rattle.tables.specs.Own.{unmarked};
ghost use Rattle.bitmap.specs.Bitmap.{lowest_clear, lowest_in, put_each, set_places};
ghost use Rattle.bitmap.specs.Laws.{FreeFirst, LowestRises, CountRises};
ghost use Rattle.bitmap.specs.Laws.{CountPadded, FreePadded, FreeBelow, MarkedPadded, UnmarkedPadded, BothPadded};
ghost use Rattle.bitmap.specs.Laws.{WordsPadded, WordsPinned, AnswersExact, ChangesExact, EmptyExact};

// Whether bit k is set.
pub fn is_set(map: &[u64], k: usize) -> bool
    requires { k < 64 * length map.now }
    ensures { result ≡ slice_index_or (bits_of map.now) k false }
{
    map[k / 64] >> (k % 64) & 1 == 1
}

// Sets bit k, or clears it.
fn put_bit(map: &mut [u64], k: usize, on: bool)
    requires { k < 64 * length map.old }
    ensures { bits_of map.new ≡ slice_set (bits_of map.old) k on }
{
    let bit = 1 << (k % 64);
    if on {
        map[k / 64] |= bit;
    } else {
        map[k / 64] &= !bit;
    }
}

// Sets bit k.
pub fn set_bit(map: &mut [u64], k: usize)
    requires { k < 64 * length map.old }
    ensures { bits_of map.new ≡ slice_set (bits_of map.old) k true }
{
    put_bit(map, k, true);
}

// Clears bit k.
pub fn clear_bit(map: &mut [u64], k: usize)
    requires { k < 64 * length map.old }
    ensures { bits_of map.new ≡ slice_set (bits_of map.old) k false }
{
    put_bit(map, k, false);
}

// How many bits are set.
pub fn count(map: &[u64]) -> usize
    requires { length map.now < 2 ^ 32 }
    ensures { result ≡ count_set (bits_of map.now) }
{
    map.iter().map(|word| word.count_ones() as usize).sum()
}

// The lowest clear bit. The first `from` words are known to be full.
pub fn lowest_from(map: &[u64], from: usize) -> Option<usize>
    requires few { length map.now < 2 ^ 32 }
    requires full { 64 * from ≤ lowest_clear (bits_of map.now) }
    ensures { result ≡ lowest_in (bits_of map.now) }
{
    let i = from + map[from..].iter().position(|word| *word != u64::MAX)?;
    Some(64 * i + map[i].trailing_ones() as usize)
}

// Takes as many of the lowest clear bits as `out` is long: sets them, and writes down their numbers.
pub fn take_lowest(map: &mut [u64], out: &mut [u64])
    requires few { length map.old < 2 ^ 32 }
    requires enough { length out.old + count_set (bits_of map.old) ≤ 64 * length map.old }
    ensures taken { out.new ≡ free (length out.old) (bits_of map.old) 0 }
    ensures bits { bits_of map.new ≡
        marked (free (length out.old) (bits_of map.old) 0) (bits_of map.old) }
{
    let mut from = 0;
    for slot in out.iter_mut() {
        let k = lowest_from(map, from).unwrap();
        set_bit(map, k);
        *slot = k as u64;
        from = k / 64;
    }
}

// Sets the bit of each number of a row, or clears it.
fn put_all(map: &mut [u64], row: &[u64], on: bool)
    requires { AllByRecursion (λ x. x < 64 * length map.old) row.now }
    ensures { bits_of map.new ≡ put_each on row.now (bits_of map.old) }
{
    for k in row {
        put_bit(map, *k as usize, on);
    }
}

// Sets the bit of each number of a row.
pub fn mark_all(map: &mut [u64], row: &[u64])
    requires { AllByRecursion (λ x. x < 64 * length map.old) row.now }
    ensures { bits_of map.new ≡ marked row.now (bits_of map.old) }
{
    put_all(map, row, true);
}

// Clears the bit of each number of a row.
pub fn unmark_all(map: &mut [u64], row: &[u64])
    requires { AllByRecursion (λ x. x < 64 * length map.old) row.now }
    ensures { bits_of map.new ≡ unmarked row.now (bits_of map.old) }
{
    put_all(map, row, false);
}

// How many bits are set in both of two maps.
pub fn count_shared(a: &[u64], b: &[u64]) -> usize
    requires few { length a.now < 2 ^ 32 }
    requires alike { length b.now ≡ length a.now }
    ensures { result ≡ length (both (bits_of a.now) (bits_of b.now) 0) }
{
    let mut shared = 0;
    // kept: one index into both, since a `zip` of the two takes half as much time again
    for (i, word) in a.iter().enumerate() {
        shared += (word & b[i]).count_ones() as usize;
    }
    shared
}

// The number of the k-th bit, counted from 0, that is set in both of two maps.
pub fn nth_shared(a: &[u64], b: &[u64], k: usize) -> Option<usize>
    requires few { length a.now < 2 ^ 32 }
    requires alike { length b.now ≡ length a.now }
    ensures { result ≡ slice_get (both (bits_of a.now) (bits_of b.now) 0) k }
{
    let mut left = k;
    for (i, (x, y)) in a.iter().zip(b).enumerate() {
        let word = x & y;
        match left.checked_sub(word.count_ones() as usize) {
            Some(rest) => left = rest,
            None => return nth_set(word, left).map(|place| 64 * i + place),
        }
    }
    None
}

// The place of a word's k-th set bit, counted from 0, where it has so many.
fn nth_set(word: u64, k: usize) -> Option<usize>
    ensures place { result ≡ slice_get (set_places (word_bits word) 0) k }
    ensures small { IfSome result (λ place. place < 64) }
{
    (0..64).filter(|place| word >> *place & 1 == 1).nth(k)
}

// One map over another.
pub fn copy(to: &mut [u64], from: &[u64])
    requires { length to.old ≡ length from.now }
    ensures { to.new ≡ from.now }
{
    to.copy_from_slice(from);
}

// Clears all bits.
pub fn clear_all(map: &mut [u64])
    ensures words { map.new ≡ replicate (length map.old) 0 }
    ensures bits { bits_of map.new ≡ replicate (64 * length map.old) false }
{
    map.fill(0);
}

// The lowest clear bit is the first free one, and taking it leaves one clear bit fewer, none of them lower.
pub fn lowest_is_free()
    ensures first { FreeFirst }
    ensures rises { LowestRises }
    ensures count { CountRises }
{}

// Bits that do not fill the last word are followed by zeros, which nobody sees.
pub fn padding_unseen()
    ensures count { CountPadded }
    ensures free { FreePadded }
    ensures below { FreeBelow }
    ensures marked { MarkedPadded }
    ensures unmarked { UnmarkedPadded }
    ensures both { BothPadded }
{}

// Words are pinned by their bits, so that a caller can say exactly which words a map has.
pub fn words_exact()
    ensures padded { WordsPadded }
    ensures pinned { WordsPinned }
    ensures answers { AnswersExact }
    ensures changes { ChangesExact }
    ensures empty { EmptyExact }
{}

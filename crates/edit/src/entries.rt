// An entry of a directory that comes, and one that goes.
ghost use Rattle.std.specs.Prelude.{◌≡◌, ◌+◌, ◌*◌, ◌<◌, ◌≤◌, length};
ghost use Rattle.tables.specs.Edits.{entered, left};
ghost use Rattle.rows.specs.Places.{place_in};
ghost use Rattle.memory.specs.Lent.{tables_in, SameTables};
ghost use Rattle.edit.specs.Lent.{RowsLent, EntriesUsed, SumsLow};

use memory::newest::Tables;
use rows::nodes::Place;
use rows::used::Used;
use splice::counts::set_count;
use splice::sums::{lower_sums, raise_sums};
use splice::words::{insert_words, remove_words};

// The directory at a place gets one entry more, last, with that row.
pub fn enter(tables: &mut Tables<'_>, used: Used, place: Place, row: &[u64]) -> Used
    requires place { EntriesUsed used place }
    requires rows { RowsLent tables.old used }
    requires sums { SumsLow tables.old.sums.now used }
    requires entries { (16 * used.entries + 16 ≤ length tables.old.entries.now) × (length row.now ≡ 16) }
    ensures same { SameTables tables.old tables.new }
    ensures cells { tables.new.cells.now ≡ tables.old.cells.now }
    ensures tables { tables_in tables.new result ≡ entered (place_in place) row.now (tables_in tables.old used) }
{
    let later = used.nodes - (place.row + 1);
    let at = 16 * (place.entries + place.count);
    set_count(tables.nodes, place.row, place.count + 1);
    raise_sums(tables.sums, place.row + 1, later, 1, 0);
    insert_words(tables.entries, 16 * used.entries, at, row);
    Used {
        entries: used.entries + 1,
        ..used
    }
}

// The entry at an index of the directory at a place goes.
pub fn leave(tables: &mut Tables<'_>, used: Used, place: Place, index: usize) -> Used
    requires place { EntriesUsed used place }
    requires index { index < place.count }
    requires rows { RowsLent tables.old used }
    requires entries { 16 * used.entries ≤ length tables.old.entries.now }
    ensures same { SameTables tables.old tables.new }
    ensures cells { tables.new.cells.now ≡ tables.old.cells.now }
    ensures tables { tables_in tables.new result ≡ left (place_in place) index (tables_in tables.old used) }
{
    let later = used.nodes - (place.row + 1);
    let at = 16 * (place.entries + index);
    set_count(tables.nodes, place.row, place.count - 1);
    lower_sums(tables.sums, place.row + 1, later, 1, 0);
    remove_words(tables.entries, 16 * used.entries, at, 16);
    Used {
        entries: used.entries - 1,
        ..used
    }
}

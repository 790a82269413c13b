// Cells of a file that come at its end, and those that go from there.
ghost use Rattle.std.specs.Prelude.{◌≡◌, ◌+◌, ◌*◌, ◌<◌, ◌≤◌, length};
ghost use Rattle.tables.specs.Edits.{grown, cut};
ghost use Rattle.rows.specs.Places.{place_in};
ghost use Rattle.memory.specs.Lent.{tables_in, SameTables};
ghost use Rattle.edit.specs.Lent.{RowsLent, CellsUsed, SumsLow};

use memory::newest::Tables;
use rows::nodes::Place;
use rows::used::Used;
use splice::counts::set_count;
use splice::sums::{lower_sums, raise_sums};
use splice::words::{insert_words, remove_words};

// The file at a place gets more cells, at its end.
pub fn grow(tables: &mut Tables<'_>, used: Used, place: Place, new: &[u64]) -> Used
    requires place { CellsUsed used place }
    requires rows { RowsLent tables.old used }
    requires sums { SumsLow tables.old.sums.now used }
    requires cells { used.cells + length new.now ≤ length tables.old.cells.now }
    ensures same { SameTables tables.old tables.new }
    ensures entries { tables.new.entries.now ≡ tables.old.entries.now }
    ensures tables { tables_in tables.new result ≡ grown (place_in place) new.now (tables_in tables.old used) }
{
    let more = new.len();
    let later = used.nodes - (place.row + 1);
    set_count(tables.nodes, place.row, place.count + more);
    raise_sums(tables.sums, place.row + 1, later, 0, more);
    insert_words(tables.cells, used.cells, place.cells + place.count, new);
    Used {
        cells: used.cells + more,
        ..used
    }
}

// The file at a place keeps its first cells only.
pub fn cut(tables: &mut Tables<'_>, used: Used, place: Place, keep: usize) -> Used
    requires place { CellsUsed used place }
    requires keep { keep ≤ place.count }
    requires rows { RowsLent tables.old used }
    requires cells { used.cells ≤ length tables.old.cells.now }
    ensures same { SameTables tables.old tables.new }
    ensures entries { tables.new.entries.now ≡ tables.old.entries.now }
    ensures tables { tables_in tables.new result ≡ cut (place_in place) keep (tables_in tables.old used) }
{
    let fewer = place.count - keep;
    let later = used.nodes - (place.row + 1);
    set_count(tables.nodes, place.row, keep);
    lower_sums(tables.sums, place.row + 1, later, 0, fewer);
    remove_words(tables.cells, used.cells, place.cells + keep, fewer);
    Used {
        cells: used.cells - fewer,
        ..used
    }
}

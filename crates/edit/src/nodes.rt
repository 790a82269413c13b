// A node that comes, and one that goes.
ghost use Rattle.std.specs.Prelude.{◌≡◌, ◌+◌, ◌*◌, ◌^◌, ◌<◌, ◌≤◌, length};
ghost use Rattle.tables.specs.Edits.{added, gone};
ghost use Rattle.rows.specs.Kinds.{kind_number};
ghost use Rattle.rows.specs.Places.{place_in};
ghost use Rattle.memory.specs.Lent.{tables_in, SameTables};
ghost use Rattle.edit.specs.Lent.{RowsLent, CellsUsed};

use memory::newest::Tables;
use rows::nodes::{Kind, Place};
use rows::used::Used;
use splice::sums::lower_sums;
use splice::words::{insert_words, remove_words};

// A node of a kind comes last, with the next id and nothing in it.
pub fn add_node(tables: &mut Tables<'_>, used: Used, kind: Kind) -> Used
    requires next { used.next + 1 < 2 ^ 64 }
    requires nodes { 4 * used.nodes + 4 ≤ length tables.old.nodes.now }
    requires sums { 2 * used.nodes + 2 ≤ length tables.old.sums.now }
    ensures same { SameTables tables.old tables.new }
    ensures entries { tables.new.entries.now ≡ tables.old.entries.now }
    ensures cells { tables.new.cells.now ≡ tables.old.cells.now }
    ensures tables { tables_in tables.new result ≡ added (kind_number kind) (tables_in tables.old used) }
{
    insert_words(
        tables.nodes,
        4 * used.nodes,
        4 * used.nodes,
        &[used.next, u64::from(kind), 0, 0],
    );
    insert_words(
        tables.sums,
        2 * used.nodes,
        2 * used.nodes,
        &[used.entries as u64, used.cells as u64],
    );
    Used {
        next: used.next + 1,
        nodes: used.nodes + 1,
        ..used
    }
}

// The node at a place goes, with its cells: a file, or a directory without entries, of which the count is 0.
pub fn drop_node(tables: &mut Tables<'_>, used: Used, place: Place) -> Used
    requires place { CellsUsed used place }
    requires rows { RowsLent tables.old used }
    requires cells { used.cells ≤ length tables.old.cells.now }
    ensures same { SameTables tables.old tables.new }
    ensures entries { tables.new.entries.now ≡ tables.old.entries.now }
    ensures tables { tables_in tables.new result ≡ gone (place_in place) (tables_in tables.old used) }
{
    let later = used.nodes - (place.row + 1);
    remove_words(tables.nodes, 4 * used.nodes, 4 * place.row, 4);
    remove_words(tables.sums, 2 * used.nodes, 2 * place.row, 2);
    lower_sums(tables.sums, place.row, later, 0, place.count);
    remove_words(tables.cells, used.cells, place.cells, place.count);
    Used {
        nodes: used.nodes - 1,
        cells: used.cells - place.count,
        ..used
    }
}

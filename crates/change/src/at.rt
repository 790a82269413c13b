// Tables changed for a name, and at a row of the table of nodes of which the place is read first.
ghost use Rattle.std.specs.Prelude.{◌≡◌, ◌+◌, ◌*◌, ◌<◌, ◌≤◌, length};
ghost use Rattle.machine.specs.Tables.{entry_row};
ghost use Rattle.tables.specs.Lookup.{row_kind, row_count, row_entries, row_cells, place_at};
ghost use Rattle.tables.specs.Edits.{entered, gone};
ghost use Rattle.rows.specs.Places.{place_in};
ghost use Rattle.memory.specs.Lent.{tables_in, SameTables};
ghost use Rattle.edit.specs.Lent.{RowsLent, EntriesUsed, SumsLow};

use edit::entries::enter;
use edit::nodes::drop_node;
use memory::newest::Tables;
use rows::keys::entry_row;
use rows::nodes::{Place, place_at};
use rows::used::Used;

// What stands at a row.
// kept: that two tables of a lent struct are read in one call is not covered where the struct is to be changed (tried)
fn read_place(tables: &Tables<'_>, row: usize) -> Place
    requires nodes { 4 * row + 4 ≤ length tables.now.nodes.now }
    requires sums { 2 * row + 2 ≤ length tables.now.sums.now }
    requires kind { row_kind tables.now.nodes.now row ≤ 1 }
    ensures { place_in result ≡ place_at row tables.now.nodes.now tables.now.sums.now }
{
    place_at(tables.nodes, tables.sums, row)
}

// The directory at a place gets one entry more, last, that gives a name to an id.
pub fn enter_name(tables: &mut Tables<'_>, used: Used, place: Place, id: u64, name: &[u8]) -> Used
    requires place { EntriesUsed used place }
    requires rows { RowsLent tables.old used }
    requires sums { SumsLow tables.old.sums.now used }
    requires entries { 16 * used.entries + 16 ≤ length tables.old.entries.now }
    requires name { length name.now ≤ 64 }
    ensures same { SameTables tables.old tables.new }
    ensures cells { tables.new.cells.now ≡ tables.old.cells.now }
    ensures tables { tables_in tables.new result
        ≡ entered (place_in place) (entry_row (record { name = name.entry.now; id = id })) (tables_in tables.old used) }
{
    enter(tables, used, place, &entry_row(id, name))
}

// The same for the directory at a row.
pub fn enter_at(tables: &mut Tables<'_>, used: Used, row: usize, id: u64, name: &[u8]) -> Used
    requires row { (row < used.nodes) × (row_kind tables.old.nodes.now row ≤ 1) }
    requires place { row_entries tables.old.sums.now row + row_count tables.old.nodes.now row ≤ used.entries }
    requires rows { RowsLent tables.old used }
    requires sums { SumsLow tables.old.sums.now used }
    requires entries { 16 * used.entries + 16 ≤ length tables.old.entries.now }
    requires name { length name.now ≤ 64 }
    ensures same { SameTables tables.old tables.new }
    ensures cells { tables.new.cells.now ≡ tables.old.cells.now }
    ensures tables { tables_in tables.new result
        ≡ entered (place_at row tables.old.nodes.now tables.old.sums.now)
        (entry_row (record { name = name.entry.now; id = id })) (tables_in tables.old used) }
{
    let place = read_place(tables, row);
    enter_name(tables, used, place, id, name)
}

// The node at a row goes, with its cells.
pub fn drop_at(tables: &mut Tables<'_>, used: Used, row: usize) -> Used
    requires row { (row < used.nodes) × (row_kind tables.old.nodes.now row ≤ 1) }
    requires place { row_cells tables.old.sums.now row + row_count tables.old.nodes.now row ≤ used.cells }
    requires rows { RowsLent tables.old used }
    requires cells { used.cells ≤ length tables.old.cells.now }
    ensures same { SameTables tables.old tables.new }
    ensures entries { tables.new.entries.now ≡ tables.old.entries.now }
    ensures tables { tables_in tables.new result
        ≡ gone (place_at row tables.old.nodes.now tables.old.sums.now) (tables_in tables.old used) }
{
    let place = read_place(tables, row);
    drop_node(tables, used, place)
}

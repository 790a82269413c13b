// A node made, removed and renamed.
ghost use Rattle.std.specs.Prelude.{◌≡◌, ℕ, ◌+◌, ◌*◌, ◌^◌, ◌<◌, ◌≤◌, List, length};
ghost use Rattle.model.specs.Tree.{made, removed, moved};
ghost use Rattle.tables.specs.Stands.{Holds};
ghost use Rattle.rows.specs.Kinds.{kind_number};
ghost use Rattle.rows.specs.Places.{place_in};
ghost use Rattle.memory.specs.Lent.{tables_in, SameTables};
ghost use Rattle.change.specs.Given.{empty, with_cells, Held, Removing, Renaming};

use crate::at::{drop_at, enter_at, enter_name};
use edit::entries::leave;
use edit::nodes::add_node;
use memory::newest::Tables;
use rows::nodes::{Kind, Place};
use rows::used::Used;

// A new node of a kind, named in the directory at a place. The cells, whatever they are, stay as they were.
pub fn make(tables: &mut Tables<'_>, used: Used, place: Place, kind: Kind, name: &[u8]) -> Used
    requires held { (cs : List ℕ) × Held (with_cells cs (tables_in tables.old used)) (place_in place) }
    requires dir { kind_number place.kind ≡ 0 }
    requires name { length name.now ≤ 64 }
    requires node_room { (4 * used.nodes + 4 ≤ length tables.old.nodes.now) × (used.next + 1 < 2 ^ 64) }
    requires entry_room { 16 * used.entries + 16 ≤ length tables.old.entries.now }
    ensures same { SameTables tables.old tables.new }
    ensures cells { tables.new.cells.now ≡ tables.old.cells.now }
    ensures holds { (cs : List ℕ)
        (g : Held (with_cells cs (tables_in tables.old used)) (place_in place)) →
        Holds g.most g.room (made g.id name.now (empty kind) g.tree) (with_cells cs (tables_in tables.new result)) }
{
    let more = add_node(tables, used, kind);
    enter_name(tables, more, place, used.next, name)
}

// The entry at an index of the directory at a place goes, and the node at a row, which has no entries and which it named.
pub fn remove(tables: &mut Tables<'_>, used: Used, place: Place, index: usize, row: usize) -> Used
    requires given { Removing (tables_in tables.old used) (place_in place) index row }
    requires dir { kind_number place.kind ≡ 0 }
    ensures same { SameTables tables.old tables.new }
    ensures holds { (g : Removing (tables_in tables.old used) (place_in place) index row) →
        Holds g.dir.most g.dir.room (removed g.dir.id g.name g.node g.dir.tree) (tables_in tables.new result) }
{
    let fewer = leave(tables, used, place, index);
    drop_at(tables, fewer, row)
}

// The entry at an index of the directory at a place goes, and the directory at a row gets an entry with that id and a new name.
// The cells, whatever they are, stay as they were. What had the new name is removed before.
pub fn rename(
    tables: &mut Tables<'_>,
    used: Used,
    place: Place,
    index: usize,
    row: usize,
    id: u64,
    name: &[u8],
) -> Used
    requires given { (cs : List ℕ)
        × Renaming (with_cells cs (tables_in tables.old used)) (place_in place) index row name.now }
    requires dir { kind_number place.kind ≡ 0 }
    requires name { length name.now ≤ 64 }
    ensures same { SameTables tables.old tables.new }
    ensures cells { tables.new.cells.now ≡ tables.old.cells.now }
    ensures holds { (cs : List ℕ)
        (g : Renaming (with_cells cs (tables_in tables.old used)) (place_in place) index row name.now) →
        Holds g.dir.most g.dir.room (moved g.dir.id g.name g.to name.now id g.whole)
        (with_cells cs (tables_in tables.new result)) }
{
    let fewer = leave(tables, used, place, index);
    enter_at(tables, fewer, row, id, name)
}

// A file that gets another size.
ghost use Rattle.std.specs.Prelude.{◌≡◌, ℕ, ◌+◌, ◌≤◌, List, [], ◌++◌, length, take};
ghost use Rattle.model.specs.Tree.{file, body_of, put_body};
ghost use Rattle.model.specs.Tree as tree;
ghost use Rattle.tables.specs.Stands.{Holds};
ghost use Rattle.rows.specs.Kinds.{kind_number};
ghost use Rattle.rows.specs.Places.{place_in};
ghost use Rattle.memory.specs.Lent.{tables_in, SameTables};
ghost use Rattle.change.specs.Given.{with_entries, Held};

use edit::cells::{cut, grow};
use memory::newest::Tables;
use rows::nodes::Place;
use rows::used::Used;

// The file at a place gets more cells, at its end. The entries, whatever they are, stay as they were.
pub fn lengthen(tables: &mut Tables<'_>, used: Used, place: Place, new: &[u64]) -> Used
    requires held { (es : List ℕ) × Held (with_entries es (tables_in tables.old used)) (place_in place) }
    requires file { kind_number place.kind ≡ 1 }
    requires room { used.cells + length new.now ≤ length tables.old.cells.now }
    ensures same { SameTables tables.old tables.new }
    ensures entries { tables.new.entries.now ≡ tables.old.entries.now }
    ensures holds { (es : List ℕ) (n : ℕ) → place.count ≤ n →
        (g : Held (with_entries es (tables_in tables.old used)) (place_in place)) →
        Holds g.most g.room
        (put_body g.id (file (take n (tree.cells (body_of g.tree g.id)) ++ new.now)) g.tree)
        (with_entries es (tables_in tables.new result)) }
{
    grow(tables, used, place, new)
}

// The file at a place keeps its first cells only. The entries, whatever they are, stay as they were.
pub fn shorten(tables: &mut Tables<'_>, used: Used, place: Place, keep: usize) -> Used
    requires held { (es : List ℕ) × Held (with_entries es (tables_in tables.old used)) (place_in place) }
    requires file { kind_number place.kind ≡ 1 }
    requires keep { keep ≤ place.count }
    ensures same { SameTables tables.old tables.new }
    ensures entries { tables.new.entries.now ≡ tables.old.entries.now }
    ensures holds { (es : List ℕ)
        (g : Held (with_entries es (tables_in tables.old used)) (place_in place)) →
        Holds g.most g.room
        (put_body g.id (file (take keep (tree.cells (body_of g.tree g.id)) ++ [])) g.tree)
        (with_entries es (tables_in tables.new result)) }
{
    cut(tables, used, place, keep)
}

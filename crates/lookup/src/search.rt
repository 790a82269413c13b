// Nodes and names looked up in the tables of a tree.
ghost use Rattle.std.specs.Prelude.{◌≡◌, ℕ, ◌+◌, ◌*◌, ◌≤◌, true, length, IfSome};
ghost use Rattle.model.specs.Tree as model;
ghost use Rattle.model.specs.Refusals as refusals;
ghost use Rattle.lookup.specs.Views.{words, Sound};
ghost use Rattle.model.specs.Calls.{good_name};
ghost use Rattle.tables.specs.Stands.{Stands};
ghost use Rattle.rows.specs.Places.{place_in};
ghost use Rattle.lookup.specs.Found.{NodeFound, DirFound, FileFound, NameFound};

use crate::tree::Tree;
use crate::view::View;
use rows::entries::{entry_id, find_name};
use rows::keys::name_key;
use rows::nodes::{Kind, Place, find_row, place_at};

// A name in a directory: which entry has it, and the id that it is given to.
#[derive(Clone, Copy, Debug, PartialEq, Eq)]
pub struct Named {
    pub index: usize,
    pub id: u64,
}

impl Tree<'_> {
    // Where a node stands.
    pub fn place_of(&self, id: u64) -> Option<Place>
        ensures { (l : refusals.Limits) (t : model.Tree) → Sound l (words self.now.view) t → NodeFound t id result }
    {
        let view = &self.view;
        let row = find_row(view.nodes, view.used.nodes, id)?;
        Some(place_at(view.nodes, view.sums, row))
    }

    // Where a directory stands, whose entries are in the table.
    pub fn directory(&self, id: u64) -> Option<Place>
        ensures found { (l : refusals.Limits) (t : model.Tree) → Sound l (words self.now.view) t → DirFound t id result }
        ensures inside { IfSome result (λ p. 16 * (p.entries + p.count) ≤ length self.now.view.entries.now) }
    {
        self.place_of(id).filter(|place| place.kind == Kind::Dir)
    }

    // Where a file stands, whose cells are in the table.
    // kept: beside `directory`, since the two promise different things, and a line with the kind is all that they share
    pub fn file(&self, id: u64) -> Option<Place>
        ensures found { (l : refusals.Limits) (t : model.Tree) → Sound l (words self.now.view) t → FileFound t id result }
        ensures inside { IfSome result (λ p. p.cells + p.count ≤ length self.now.view.cells.now) }
    {
        self.place_of(id).filter(|place| place.kind == Kind::File)
    }
}

impl View<'_> {
    // A name in the directory at a place.
    pub fn name_in(&self, dir: Place, name: &[u8]) -> Option<Named>
        requires inside { 16 * (dir.entries + dir.count) ≤ length self.now.entries.now }
        requires named { good_name name.now ≡ true }
        ensures { (l : refusals.Limits) (t : model.Tree) (d : ℕ) → Sound l (words self.now) t →
            Stands d t.nodes (place_in dir) → (place_in dir).kind ≡ 0 → NameFound t d name.now result }
    {
        let index = find_name(self.entries, dir.entries, dir.count, &name_key(name))?;
        Some(Named {
            index,
            id: entry_id(self.entries, dir.entries + index),
        })
    }
}

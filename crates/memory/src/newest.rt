// The tables of the newest tree, to be changed. (Of a lent struct one field can be lent on at a time, so memory is two structs: what
// is done to a map by the cells of a file needs a field of each.)
ghost use Rattle.std.specs.Prelude.{◌≡◌};
ghost use Rattle.lookup.specs.Views.{words};
ghost use Rattle.memory.specs.Lent.{tables_in};

use lookup::view::View;
use rows::used::Used;

// Nodes, four words each; sums, two for each node; entries, sixteen each; cells, one each.
// kept: the board lends plain words, so a table has no rows of a type of its own
#[derive(Drop)]
pub struct Tables<'a> {
    pub nodes: &'a mut [u64],
    pub sums: &'a mut [u64],
    pub entries: &'a mut [u64],
    pub cells: &'a mut [u64],
}

impl Tables<'_> {
    // The same tables, to be read, where so much of them is in use.
    pub fn view(&self, used: Used) -> View<'_>
        ensures { words result ≡ tables_in self.now used }
    {
        View {
            nodes: self.nodes,
            sums: self.sums,
            entries: self.entries,
            cells: self.cells,
            used,
        }
    }
}

// The tables of a tree as they are lent.
use rows::used::Used;

// The tables of a tree, to be read only.
// kept: the board lends plain words, so a table has no rows of its own type
#[derive(Clone, Copy)]
pub struct View<'a> {
    pub nodes: &'a [u64],
    pub sums: &'a [u64],
    pub entries: &'a [u64],
    pub cells: &'a [u64],
    pub used: Used,
}

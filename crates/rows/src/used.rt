// How much of a tree's tables is in use.

// Nodes, entries and cells in use, and the id that the next new node gets.
#[derive(Clone, Copy, Debug, PartialEq, Eq)]
pub struct Used {
    pub next: u64,
    pub nodes: usize,
    pub entries: usize,
    pub cells: usize,
}

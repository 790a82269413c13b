// A tree's tables in lent slices of words, read: nodes, entries and cells, and names as words. Each function equals a definition
// over words (crates tables and machine); what trees those words stand for is no matter here.
#![tactic(auto)]

pub mod cells;
pub mod entries;
pub mod keys;
pub mod nodes;
pub mod used;

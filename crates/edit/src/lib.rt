// Changes of the tables of a tree, as words: an entry that comes or goes, cells that come or go, a node that comes or goes. Each
// function equals a definition over words (crate tables); what trees those words stand for is no matter here.
#![tactic(auto)]

pub mod cells;
pub mod entries;
pub mod nodes;

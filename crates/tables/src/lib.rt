// The tables of words that hold a tree: how they are looked up and changed, and the laws that tie them to trees. The definitions
// are in specs/; nothing here runs.
#![tactic(auto)]

pub mod edits;
pub mod journal;
pub mod lookup;
pub mod own;

// Nodes and names looked up in the tables of a tree, in lent slices. Each function is proved to tell what the tree says, for every
// tree that the tables hold.
#![tactic(auto)]

pub mod inside;
pub mod kinds;
pub mod search;
pub mod tree;
pub mod view;

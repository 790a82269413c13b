// Changes of a tree in its lent tables: where the tables held a tree, they hold the changed one after.
#![tactic(auto)]

pub mod at;
pub mod names;
pub mod sizes;

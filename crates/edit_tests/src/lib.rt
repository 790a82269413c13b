// An afternoon of a small tree, with room for four nodes and six cells: each step starts from tables worked out by hand, and a test
// compares what it leaves with tables worked out by hand. What is proved holds for all tables; this shows that the layout is the one
// that is meant, and that there are tables that hold a tree.
#![tactic(auto)]

#[cfg(test)]
mod afternoon_tests;
pub mod moments;
pub mod steps;

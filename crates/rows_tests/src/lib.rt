// Tests of the tables' code on rows worked out by hand. What is proved holds for all words; these show that the layout is the
// one that is meant.
#![tactic(auto)]

#[cfg(test)]
mod change_tests;
#[cfg(test)]
mod name_tests;
#[cfg(test)]
mod search_tests;

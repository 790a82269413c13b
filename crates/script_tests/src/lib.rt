// Tests of scripts, by tables made by hand, in a crate of their own, since a crate with tests is proved twice.
#![tactic(auto)]

#[cfg(test)]
mod bytes_tests;
#[cfg(test)]
mod line_table;
#[cfg(test)]
mod line_tests;
#[cfg(test)]
mod player_tests;
#[cfg(test)]
mod word_tests;

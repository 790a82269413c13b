// Tests of calls and answers as bytes: tables of bytes in hexadecimal, worked out by hand from the format, each read and
// written. What is proved holds for all bytes; these show that the format is the one that is meant.
#![tactic(auto)]

#[cfg(test)]
mod answer_table;
#[cfg(test)]
mod answer_tests;
#[cfg(test)]
mod call_table;
#[cfg(test)]
mod call_tests;
#[cfg(test)]
mod garbled_table;
#[cfg(test)]
mod garbled_tests;
#[cfg(test)]
mod rows;

// Changes of a tree's tables in lent slices of words: words put in and taken out, sums and counts changed. Each function equals
// a definition over words (crates blocks and tables); what trees those words stand for is no matter here.
#![tactic(auto)]

pub mod counts;
pub mod sums;
pub mod words;

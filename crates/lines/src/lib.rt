// What lines begin with, and calls and answers printed as lines. Lines are read by crate `script`.
#![tactic(auto)]

pub mod printing;
pub mod verb;

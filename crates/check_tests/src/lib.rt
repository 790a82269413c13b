// Tests of the check of calls, on a small tree whose tables are made by hand; each answer is worked out by hand from the list of
// refusals. They show the order of the reasons, each limit, and what is just inside it.
#![tactic(auto)]

pub mod board;
#[cfg(test)]
mod refusal_tests;

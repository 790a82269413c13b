// What is to be done for a call that is not refused, and by what calls are checked. specs/Steps.antt says what each step stands
// for, and what a check of a call tells.
#![tactic(auto)]

pub mod stage;
pub mod state;
pub mod step;

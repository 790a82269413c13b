// Reading calls and answers from bytes: any bytes at all are read, nothing is copied, and nothing is allocated. Crate
// `codec` has the formats and what is proved of them.
#![tactic(auto)]

mod answer;
mod call;
mod length;
mod parts;

pub use answer::read_answer;
pub use call::read_call;

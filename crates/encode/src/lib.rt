// Writing calls and answers as bytes over the front of a slice. Where there is no room, nothing is written. Crate `codec`
// has the formats and what is proved of them.
#![tactic(auto)]

mod answer;
mod call;
mod length;
mod parts;

pub use answer::write_answer;
pub use call::write_call;

// The memory of a volume, as it is lent: the tables of the newest tree, and what else there is of its state. What the words stand for
// is said in specs/.
#![tactic(auto)]

pub mod joined;
pub mod newest;
pub mod status;

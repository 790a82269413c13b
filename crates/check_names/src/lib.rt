// Why a call that finds, makes, removes or renames is refused, or what is to be done, by the tables of the newest tree.
#![tactic(auto)]

pub mod makes;
pub mod renames;

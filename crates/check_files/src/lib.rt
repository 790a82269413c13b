// Why a call that lists, reads, writes, resizes or syncs is refused, or what is to be done, by the tables of the newest tree.
#![tactic(auto)]

pub mod files;

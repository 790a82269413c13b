// Why a call is refused, or what is to be done, by the tables of the newest tree in lent slices. Proved equal to the model's
// refusals for every tree that the tables hold.
#![tactic(auto)]

pub mod check;

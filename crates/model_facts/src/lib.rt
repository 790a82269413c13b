// Small facts of the model's definitions that more than one crate needs, in proofs/. Nothing here runs.
#![tactic(auto)]

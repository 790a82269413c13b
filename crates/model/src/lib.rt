// The model: definitions alone, in specs/. Nothing here runs.
#![tactic(auto)]

// The ten steps as rules on a state, and what holds of their runs: see specs/ and proofs/. This crate has no code.
#![tactic(auto)]

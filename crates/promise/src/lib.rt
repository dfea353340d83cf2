// This crate has no code: specs/ says what is promised of the calls, proofs/ why it holds.
#![tactic(auto)]

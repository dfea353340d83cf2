// This crate has no code: specs/ says what is promised of calls with the totals lent and of calls from C, proofs/ why it holds.
#![tactic(auto)]

// This crate has no code: specs/ states the sentences of 01 that the promises render, in 01's words; proofs/ derives each from its field.
#![tactic(auto)]

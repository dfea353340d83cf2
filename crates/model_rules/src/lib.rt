// The invariants that the model's calls keep: definitions in specs/, theorems in proofs/; no code.
#![tactic(auto)]

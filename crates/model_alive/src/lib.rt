// The progress that the model's calls make: statements in specs/, theorems in proofs/; no code.
#![tactic(auto)]

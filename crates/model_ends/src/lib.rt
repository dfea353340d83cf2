// Two ends of the model and the bytes they carry: definitions in specs/, theorems in proofs/; no code.
#![tactic(auto)]

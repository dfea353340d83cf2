// The model has no code: its definitions are in specs/, its theorems in proofs/.
#![tactic(auto)]

// Blocks and one round over them: definitions in specs/, theorems in proofs/, no code.
#![tactic(auto)]

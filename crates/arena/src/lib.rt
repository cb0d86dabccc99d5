// Games, plays and winning: definitions in specs/, theorems in proofs/, no code.
#![tactic(auto)]

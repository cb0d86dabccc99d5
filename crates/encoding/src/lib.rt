// The file of a game read back, and an accepted file written again: theorems in proofs/, no code.
#![tactic(auto)]

// The cases of 01 that are proved: data in specs/, the table in proofs/, no code.
#![tactic(auto)]

// The lowest figure: request T-08 of document 02. Definitions in specs/, theorems in proofs/; no code.
#![tactic(auto)]

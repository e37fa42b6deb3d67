// The rules of document 01. Definitions in specs/, theorems in proofs/; no code.
#![tactic(auto)]

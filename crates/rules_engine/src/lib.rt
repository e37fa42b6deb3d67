// Demand 3, once, for whatever answers the calls. Definitions in specs/, theorems in proofs/; no code.
#![tactic(auto)]

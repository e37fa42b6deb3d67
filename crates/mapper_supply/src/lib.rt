// The pages that the door hands out to a map, one after another: whole, free before, and none twice. Statements in specs/, what shows them in proofs/; no code.
#![tactic(auto)]

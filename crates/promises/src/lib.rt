// What is promised of the calls together: that each contract allows one result, and that the books close at every door. Statements in
// specs/, what shows them in proofs/; no code.
#![tactic(auto)]

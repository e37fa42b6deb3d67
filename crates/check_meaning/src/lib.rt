// What the check of a state means, clause by clause: specs/ and proofs/.
#![tactic(auto)]

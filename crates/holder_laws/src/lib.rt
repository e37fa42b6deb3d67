// What follows from request T-07's definitions: proofs/. No code.
#![tactic(auto)]

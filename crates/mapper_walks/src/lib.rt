// What is promised of an accepted map: in specs/, shown in proofs/. No code.
#![tactic(auto)]

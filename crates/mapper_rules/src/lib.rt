// The stage 2 walk, and the numbers that a map refuses: definitions in specs/, their figures in proofs/. No code.
#![tactic(auto)]

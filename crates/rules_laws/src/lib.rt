// What follows from the rules: soundness, demand 3, the document's words as facts. Theorems in proofs/; no code.
#![tactic(auto)]

// Theorems over the definitions of all layers; it has no code. What is promised stands in specs/, and its proofs in proofs/.
#![tactic(auto)]

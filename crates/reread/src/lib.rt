// Demand 2 for stores: what a written store says when it is read again. Theorems only, in proofs/.
#![tactic(auto)]

// Demand 3 over every history of public calls: definitions in specs/, theorems in proofs/. There is no code here.
#![tactic(auto)]

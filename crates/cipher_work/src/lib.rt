// Theorems, no code: what calls cost (02, request 10). The statements stand in specs/, the proofs in proofs/.
#![tactic(auto)]

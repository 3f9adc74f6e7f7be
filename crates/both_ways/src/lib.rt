// Theorems over images: a state that is written is read back, and what is kept is what the next run starts from. No code.
#![tactic(auto)]

// Theorems over both ends of a talk: what one side builds the other opens, and the keys of an authentication agree. No code.
#![tactic(auto)]

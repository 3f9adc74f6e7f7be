// Theorems over the definitions of the tag: one meaning, one normal string, over any series (demand 3). No code.
#![tactic(auto)]

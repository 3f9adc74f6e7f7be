// Theorems over settings strings: what a good string keeps, the normal form, strings and records. No code.
#![tactic(auto)]

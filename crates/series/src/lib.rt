// Theorems over the tag's definitions: what every call keeps, and any series of calls. No code.
#![tactic(auto)]

// Theorems over the definitions of the tag: the reads of one tap show one text (02, request 3). No code.
#![tactic(auto)]

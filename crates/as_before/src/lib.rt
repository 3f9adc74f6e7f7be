// A theorem over the definitions of access and the tag: with the right named (02, request 5), mode, status, reply and next state are as
// before. No code.
#![tactic(auto)]

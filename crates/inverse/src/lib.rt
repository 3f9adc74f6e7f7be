// Theorems over the definitions of AES: what decrypts undoes what encrypts, blocks stay blocks, FIPS 197's worked example. No code.
#![tactic(auto)]

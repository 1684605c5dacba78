// The schedule maker's rounds end, and every list made is accepted by recording, finishes and is short (document 02, #102).
// Statements in `specs`, theorems in `proofs`, no code.
#![tactic(auto)]

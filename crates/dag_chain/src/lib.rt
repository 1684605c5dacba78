// Work, span and the heaviest chain (document 02, #105): what is claimed of them, and the walk that finds the chain. Statements in
// `specs`, theorems in `proofs`, no code.
#![tactic(auto)]

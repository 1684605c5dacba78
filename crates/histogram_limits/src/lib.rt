// The limits of the histogram's buckets (document 02, #106): the rule holds for all 176, and a load goes to the highest that does
// not exceed it. Statements in `specs`, theorems in `proofs`, no code.
#![tactic(auto)]

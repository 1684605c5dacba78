// Over every list of calls the counts of a histogram add up to the phases answered (document 02, #106). Statements in
// `specs`, theorems in `proofs`, no code.
#![tactic(auto)]

// A run never gets stuck: in every state that events lead to, unless every step has run, some worker may run. Statements in
// `specs`, theorems in `proofs`, no code.
#![tactic(auto)]

// Single events are the rules: from an accepted start on, whatever events follow, `run_state`'s calls tell what the rules tell and leave a
// state that shows the rules' run. Statements in `specs`, theorems in `proofs`, no code.
#![tactic(auto)]

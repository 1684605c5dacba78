// What is so of every run, whatever the scheduler does: the sentences of document 01, "Scheduling", as one invariant, proved of the
// rules' runs after every list of events. Statements in `specs`, theorems in `proofs`, no code.
#![tactic(auto)]

// What must precede what (document 02, #105): the test that computes is the closure of the direct precedences. Statements in
// `specs`, theorems in `proofs`, no code.
#![tactic(auto)]

// What is so of every trace that replay accepts, as theorems in proofs/. No code.
#![tactic(auto)]

// The live run and the replay of its trace have the same phases: theorems in proofs/. No code.
#![tactic(auto)]

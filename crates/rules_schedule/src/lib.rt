// The schedule maker (document 02, #102) as definitions that compute, with its worked cases. Definitions in `specs` alone, no code.
#![tactic(auto)]

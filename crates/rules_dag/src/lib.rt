// The order of a frame's steps, work and span (document 02, #105) as definitions that compute, with their worked cases. Definitions in
// `specs` alone, no code.
#![tactic(auto)]

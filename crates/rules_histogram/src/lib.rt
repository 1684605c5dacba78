// Phase loads over many traces (document 02, #106) as definitions that compute, with their worked cases. Definitions in `specs` alone,
// no code.
#![tactic(auto)]

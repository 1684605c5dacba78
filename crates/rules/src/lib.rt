// The rules of recording and replay, as definitions in specs/. No code.
#![tactic(auto)]

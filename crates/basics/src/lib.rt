// General definitions and lemmas, of tests, lists and counts, that every crate may cite; no code is needed for them.

#![tactic(auto)]

// The forest that a table's parents make: its theory stands in specs/ and proofs/, and no code is needed for it.

#![tactic(auto)]

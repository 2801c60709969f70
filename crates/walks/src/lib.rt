// What walks by hand share: the walk of a function that holds a lent struct or a lent slice of structs. Theory alone, in proofs/.

#![tactic(auto)]

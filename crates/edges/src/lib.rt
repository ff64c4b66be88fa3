// The cases of document 01 that are proved: in specs/ every case marked P as one table, in proofs/ that the definitions which the
// library's contracts cite compute to what it says. It has no function. Stands on all the libraries here but `season`, `near`
// and `rough`.
#![tactic(auto)]

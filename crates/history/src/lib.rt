// The history of a book: in specs/ what a book is that has grown from a fresh one by accepted commits, and its history, the drives of
// its calls; in proofs/ what such a book tells of it. It has no function. Stands on `dispatch` and what that stands on.
#![tactic(auto)]

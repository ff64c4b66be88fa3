// The work function and its witness, on any distance between places: in specs/ what positions, movements, the work
// function, the choice of a crane, plans, vouching weights and net costs are; in proofs/ that a plan with weights that vouch
// costs exactly the least of all movements, and that net costs tell it for one more call. It has no function, and knows no
// table and no book. Stands on `base`.
#![tactic(auto)]

// The half of the road table beside the square that it is the half of: in specs/ a square with its tests, its half, and what is told
// over a square; in proofs/ that the half gives the same. It has no function. Stands on `sheet` and what that stands on.
#![tactic(auto)]

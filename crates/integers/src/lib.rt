// Whole numbers stand in specs/: orders, ranges and their hulls, sums, tests over lists; what follows from them in proofs/. There is no code.
#![tactic(auto)]

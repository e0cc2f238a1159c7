// The page of rules stands in specs/, what follows from it in proofs/. There is no code.
#![tactic(auto)]

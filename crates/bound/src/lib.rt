// The bound theorem over the definitions of a round: the invariant in specs/, theorems in proofs/. Nothing runs here.

#![tactic(auto)]

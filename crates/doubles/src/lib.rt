// The scalars of a fit are values of binary64 at every pause and end, so that their bits say them again: theorems only. Nothing runs here.

#![tactic(auto)]

// smartcore's own functions as definitions over lists and numbers, in specs/. Nothing runs here.

#![tactic(auto)]

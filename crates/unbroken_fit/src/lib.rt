// That the fit's parts in nested loops, which the steps of a paused fit are compared with, are smartcore's own functions. Nothing runs here.

#![tactic(auto)]

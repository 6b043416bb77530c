// What holds of a fit that is paused: theorems over the parts of lasso_optimizer. Nothing runs here.

#![tactic(auto)]

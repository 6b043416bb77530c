// 01's known corners as one table under one proved statement: theorems only. Nothing runs here.

#![tactic(auto)]

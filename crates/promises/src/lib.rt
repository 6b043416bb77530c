// What is promised of the entry points, stated about their contracts: theorems only. Nothing runs here.

#![tactic(auto)]

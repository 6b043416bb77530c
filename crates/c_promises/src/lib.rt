// What is promised of the calls over words, stated about their contracts: theorems only. Nothing runs here.

#![tactic(auto)]

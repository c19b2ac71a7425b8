// What is promised of the calls: theorems, no code.
#![tactic(auto)]

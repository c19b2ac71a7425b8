// The theorems on files and tables; there is no code here.
#![tactic(auto)]

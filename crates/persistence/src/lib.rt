// Laws of two steps in a row: what waits stays; there is no code here.
#![tactic(auto)]

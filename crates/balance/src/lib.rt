// Laws of a step: every equation holds in it; there is no code here.
#![tactic(auto)]

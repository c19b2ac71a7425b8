// Laws of the integers and of finite sums; there is no code here.
#![tactic(auto)]

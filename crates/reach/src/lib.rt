// The colours that can reach a channel, and laws of them; there is no code here.
#![tactic(auto)]

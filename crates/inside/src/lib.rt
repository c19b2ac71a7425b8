// From start on, every colour that moves lies in the set of its channel; there is no code here.
#![tactic(auto)]

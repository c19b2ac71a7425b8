// The list of calls on a state: definitions and their induction, no code.
#![tactic(auto)]

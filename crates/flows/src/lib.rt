// Proposals, flows and the verdict on them: definitions and laws. The code is in sums and judgement.
#![tactic(auto)]

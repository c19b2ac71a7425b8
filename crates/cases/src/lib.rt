// The worked cases of the document, computed from the definitions; there is no code here.
#![tactic(auto)]

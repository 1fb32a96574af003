// Nothing runs here: the crate holds the theorems on the store as a whole.

#![tactic(auto)]

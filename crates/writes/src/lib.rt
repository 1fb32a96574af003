#![tactic(auto)]

// Nothing runs here: the crate holds the mathematics of a growth and of a write.

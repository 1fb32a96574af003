// Nothing runs here: the crate holds the write as one loop over blocks that are tried, and its laws.

#![tactic(auto)]

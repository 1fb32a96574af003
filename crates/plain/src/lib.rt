// Nothing runs here: sound lists as plain files of bytes, and what a lookup costs.

#![tactic(auto)]

// Nothing runs here: the crate holds the theory of the window, over the definitions of `window`.

#![tactic(auto)]

//! A pull over a saved history, and the history that a list of pulls leaves, as definitions that contracts cite. No code.
#![tactic(auto)]

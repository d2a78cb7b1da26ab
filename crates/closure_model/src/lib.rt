//! What the dumps of a saved history give where nothing is saved, as definitions that contracts cite. No code.
#![tactic(auto)]

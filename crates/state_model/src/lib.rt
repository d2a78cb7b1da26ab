//! The saved state and its one text, as definitions that contracts cite. No code.
#![tactic(auto)]

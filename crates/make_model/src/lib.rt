//! The history that is made from a number, as definitions that contracts cite. No code.
#![tactic(auto)]

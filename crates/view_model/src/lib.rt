//! Changesets and commits with all that they stand for, and what is written for a list of them, as definitions that contracts cite. No code.
#![tactic(auto)]

//! Names of commits and tags on both sides, as definitions that contracts cite. No code.
#![tactic(auto)]

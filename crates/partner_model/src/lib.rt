//! Marks, unmarkings, depth and partners of changesets and commits, as definitions that contracts cite. No code.
#![tactic(auto)]

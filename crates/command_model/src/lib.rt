//! The commands of the program and how a run ends, as definitions that contracts cite. No code.
#![tactic(auto)]

//! Laws of lists of paths: those in rising order are told by what is among them. No code.
#![tactic(auto)]

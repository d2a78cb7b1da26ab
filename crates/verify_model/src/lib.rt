//! What the audit of a saved history asks, as definitions that contracts cite. No code.
#![tactic(auto)]

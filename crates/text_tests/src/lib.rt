//! Runs of the crates that belong to neither side of the bridge: their values come from Mercurial, Git and the formats themselves.
#![tactic(auto)]

#[cfg(test)]
mod files;
#[cfg(test)]
mod names;
#[cfg(test)]
mod outside;
#[cfg(test)]
mod ropes;
#[cfg(test)]
mod texts;

//! Runs of the crates of the Git side: their values come from Git, from SHA-1 and from the formats themselves.
#![tactic(auto)]

#[cfg(test)]
mod batches;
#[cfg(test)]
mod dumps;
#[cfg(test)]
mod objects;
#[cfg(test)]
mod orders;
#[cfg(test)]
mod stores;
#[cfg(test)]
mod streams;
#[cfg(test)]
mod sums;
#[cfg(test)]
mod texts;
#[cfg(test)]
mod trees;

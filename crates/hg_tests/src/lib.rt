//! Runs of the crates of the Mercurial side: their values come from Mercurial, from SHA-1 and from the formats themselves.
#![tactic(auto)]

#[cfg(test)]
mod bundles;
#[cfg(test)]
mod changesets;
#[cfg(test)]
mod chunks;
#[cfg(test)]
mod deltas;
#[cfg(test)]
mod dumps;
#[cfg(test)]
mod filelogs;
#[cfg(test)]
mod listings;
#[cfg(test)]
mod manifests;
#[cfg(test)]
mod stores;

//! Runs of the whole program, over objects in memory.
#![tactic(auto)]

#[cfg(test)]
mod audits;
#[cfg(test)]
mod bundles;
#[cfg(test)]
mod inputs;
#[cfg(test)]
mod made;
#[cfg(test)]
mod members;
#[cfg(test)]
mod names;
#[cfg(test)]
mod outside;
#[cfg(test)]
mod pulls;
#[cfg(test)]
mod run_over;
#[cfg(test)]
mod saved;
#[cfg(test)]
mod statuses;
#[cfg(test)]
mod streams;
#[cfg(test)]
mod table;

//! Runs of the crates of the saved state: their values come from the example, from Git and from SHA-1.
#![tactic(auto)]

#[cfg(test)]
mod audits;
#[cfg(test)]
mod sections;
#[cfg(test)]
mod tags;
#[cfg(test)]
mod texts;
#[cfg(test)]
mod values;

use std::fmt;
use thiserror::Error;

/// The text begins with the mark before metadata, and the mark behind them is missing.
#[derive(Clone, Copy, Debug, PartialEq, Eq, Error)]
#[error("the metadata of a file revision have no end")]
pub struct FileShape;

/// The outside failed, and the count of the object that it failed at rose.
#[derive(Clone, Copy, Debug, PartialEq, Eq)]
pub struct Failed;

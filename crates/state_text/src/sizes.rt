/// How many bytes the dumps in the text of a state take.
#[derive(Clone, Copy, Debug, PartialEq, Eq)]
pub struct Sizes {
    /// The bundle of the changesets.
    pub bundle: u64,
    /// The stream of the commits.
    pub stream: u64,
    /// The kept tags behind that stream.
    pub tags: u64,
}

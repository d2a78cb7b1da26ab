ghost use Rattle.std.specs.Prelude.{◌≡◌, None};

use bridge_text::Bytes;

/// Texts that were made for a changeset already, so that nobody writes or reads them again.
#[derive(Debug, Drop)]
pub struct DraftTexts {
    /// The text of the changeset, where it was made.
    pub changeset: Option<Bytes>,
    /// The text of its manifest, where it was made.
    pub manifest: Option<Bytes>,
}

impl DraftTexts {
    /// No text was made.
    pub fn none() -> DraftTexts
        ensures changeset { result.changeset ≡ None }
        ensures manifest { result.manifest ≡ None }
    {
        DraftTexts {
            changeset: None,
            manifest: None,
        }
    }
}

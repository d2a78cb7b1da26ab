use bridge_text::{Bytes, Id, Paths};
use hg_manifest::ManifestRev;

/// A part of a changeset that the rule would not give back from the commit: a line of the commit's
/// headers. Texts are escaped, and one space stands between each two words.
#[derive(Debug, Drop)]
pub enum Mark {
    /// `HG:rename PATH FROM`: the revision of a path is a copy of another path's, and has no parents.
    Rename {
        /// The path of the copy.
        path: Bytes,
        /// The path that was copied.
        from: Bytes,
    },
    /// `HG:file PATH P Q META`: the revision of a path has these parents and metadata.
    File {
        /// The path.
        path: Bytes,
        /// The first parent of the revision; the null id where it has none.
        p: Id,
        /// The second parent of the revision; the null id where it has none.
        q: Id,
        /// The metadata, written `=` and their escape; `-` where the text has no place for any.
        meta: Option<Bytes>,
    },
    /// `HG:manifest null` or `HG:manifest P Q`: another manifest.
    Manifest(ManifestRev),
    /// `HG:files N` and N paths: another list of files.
    Files(Paths),
    /// `HG:user USER`: another user.
    User(Bytes),
    /// `HG:date TIME TZ`: another time.
    Date {
        /// Seconds since 1970 began, in UTC; from -2^62 to 2^62.
        time: i64,
        /// Seconds west of UTC, from -2^31 to 2^31.
        tz: i64,
    },
    /// `HG:raw LINE`: a date line of another form.
    Raw(Bytes),
    /// `HG:extra KEY VALUE`: an item of the extras.
    Extra {
        /// The key.
        key: Bytes,
        /// The value.
        value: Bytes,
    },
}

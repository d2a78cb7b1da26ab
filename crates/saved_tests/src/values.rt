// The bundle of one changeset, the stream of its commit, and ids.
use bridge_text::Id;
use shared_text::{Text, keep};
use std::alloc::Global;
use std::test::Fail;

/// A changeset with the file `a`, as `hg bundle` writes it.
pub const BUNDLE: &[u8] =
    b"HG10UN\0\0\0\x9f\xa4\xeaK\x98z&~\x07\xd9\xe0\xd3v&\xd8\xca\x85\x09\x81Kv\0\0\0\0\0\0\0\0\0\0\
    \0\0\0\0\0\0\0\0\0\0\0\0\0\0\0\0\0\0\0\0\0\0\0\0\0\0\0\0\0\0\xa4\xeaK\x98z&~\x07\xd9\xe0\xd3\
    v&\xd8\xca\x85\x09\x81Kv\0\0\0\0\0\0\0\0\0\0\0?d51f7835c8978f5a11f9a33e09d3852ff4979e7c\nAnn\
    \x20<ann@x>\n0 0\na\n\none\0\0\0\0\0\0\0\x8b\xd5\x1fx5\xc8\x97\x8fZ\x11\xf9\xa3>\x09\xd3\x85/\
    \xf4\x97\x9e|\0\0\0\0\0\0\0\0\0\0\0\0\0\0\0\0\0\0\0\0\0\0\0\0\0\0\0\0\0\0\0\0\0\0\0\0\0\0\0\
    \0\xa4\xeaK\x98z&~\x07\xd9\xe0\xd3v&\xd8\xca\x85\x09\x81Kv\0\0\0\0\0\0\0\0\0\0\0+a\02c186c8c\
    5bc0df5af5b951afe407d803f9e6b8c9\n\0\0\0\0\0\0\0\x05a\0\0\0f,\x18l\x8c[\xc0\xdfZ\xf5\xb9Q\
    \xaf\xe4\x07\xd8\x03\xf9\xe6\xb8\xc9\0\0\0\0\0\0\0\0\0\0\0\0\0\0\0\0\0\0\0\0\0\0\0\0\0\0\0\0\
    \0\0\0\0\0\0\0\0\0\0\0\0\xa4\xeaK\x98z&~\x07\xd9\xe0\xd3v&\xd8\xca\x85\x09\x81Kv\0\0\0\0\0\0\
    \0\0\0\0\0\x06hello\n\0\0\0\0\0\0\0\0";

/// The objects of its commit, as `git cat-file --batch` prints them.
pub const STREAM: &[u8] =
    b"ce013625030ba8dba906f756967f9e9ca394464a blob 6\nhello\n\n0976950c1fdbcb52435a433913017bf044\
    b3a58f tree 29\n100644 a\0\xce\x016%\x03\x0b\xa8\xdb\xa9\x06\xf7V\x96\x7f\x9e\x9c\xa3\x94FJ\
    \nfb8491d27293299d600326567e91d35289f99b8d commit 108\ntree 0976950c1fdbcb52435a433913017bf0\
    44b3a58f\nauthor Ann <ann@x> 0 +0000\ncommitter Ann <ann@x> 0 +0000\n\none\n\n";

/// The changeset and the commit.
pub const NODE: &[u8] = b"a4ea4b987a267e07d9e0d37626d8ca8509814b76";

pub const COMMIT: &[u8] = b"fb8491d27293299d600326567e91d35289f99b8d";

/// The blob of its file.
pub const BLOB: &[u8] = b"ce013625030ba8dba906f756967f9e9ca394464a";

pub fn id(digits: &[u8]) -> Result<Id, Fail> {
    Ok(Id::from_hex(digits).ok_or("40 digits")?)
}

/// These bytes as a text.
pub fn text(alloc: Global, bytes: &[u8]) -> Result<Text, Fail> {
    Ok(keep(bytes.to_vec(alloc)?)?)
}

// The limits of this project. Each may be reached and not passed.

/// The bytes of the input of one command: 512 MiB.
pub const INPUT_LIMIT: u64 = 1 << 29;

/// The bytes of all texts that the entries of one bundle make.
pub const SUM_LIMIT: usize = 1 << 30;

/// The bytes of a file text, a manifest, a blob, a tree or an annotated tag.
pub const TEXT_LIMIT: usize = 1 << 26;

/// The bytes of a changeset's text or of a commit.
pub const COMMIT_LIMIT: usize = 1 << 24;

/// The rows of a commit's tree, each counted as the bytes of its path and 42.
pub const ROWS_LIMIT: usize = 1 << 26;

/// The parents of a commit.
pub const PARENT_LIMIT: usize = 64;

/// The bytes of a path.
pub const PATH_LIMIT: usize = 4096;

/// The bytes of a bundle's chunk that is an entry of a group, those of its length field among them: 128 MiB.
pub const ENTRY_LIMIT: u32 = 1 << 27;

/// The bytes of a bundle's chunk that is a path, those of its length field among them.
pub const PATH_CHUNK_LIMIT: u32 = 4100;

/// The bytes of an object's line in a stream, its LF among them.
pub const LINE_LIMIT: usize = 4096;

/// The components of a path.
pub const COMPONENT_LIMIT: usize = 256;

/// The bytes of a saved state's text: 2 GiB less one byte.
pub const SLOT_LIMIT: usize = 0x7FFF_FFFF;

/// The bytes of the bundle and of the stream that a saved state stands for: 512 MiB each, so that either may be pulled again.
pub const DUMP_LIMIT: usize = 536_870_912;

/// The changesets of a saved state.
pub const CHANGESET_LIMIT: usize = 1_000_000;

/// The links of a block: a commit of `PARENT_LIMIT` parents has two fewer.
pub const LINK_LIMIT: u8 = 62;

/// The bytes of a ref's name.
pub const REF_LIMIT: usize = 4096;

/// The names of a saved state.
pub const NAME_LIMIT: usize = 100_000;

/// So many unmarkings below a member are too many.
pub const DEPTH_LIMIT: u8 = 16;

/// The changesets of a made history.
pub const MADE_LIMIT: u64 = 20_000;

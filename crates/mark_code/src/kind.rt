// The first words of the lines.

pub const RENAME: &[u8] = b"HG:rename";

pub const FILE: &[u8] = b"HG:file";

pub const MANIFEST: &[u8] = b"HG:manifest";

pub const FILES: &[u8] = b"HG:files";

pub const USER: &[u8] = b"HG:user";

pub const DATE: &[u8] = b"HG:date";

pub const RAW: &[u8] = b"HG:raw";

pub const EXTRA: &[u8] = b"HG:extra";

// The pulls of bundles and streams.
use crate::inputs::{LEAST, ONE_CHANGESET};
use crate::members::{
    FILE_BEFORE_ITS_PARENT, GITLINK_CHANGESET, GITLINK_COMMIT, KEPT_GITLINK_CHANGESETS,
    KEPT_GITLINK_COMMITS, LINKS_ALONE, MANIFEST_BEFORE_ITS_PARENT, OCTOPUS_CHANGESETS,
    OCTOPUS_COMMITS, OVER_A_LINK, RENAME_CHANGESETS, RENAME_COMMITS,
};
use crate::table::{Answer, Row, check};
use std::test::Fail;

const PULL_HG: &[&[u8]] = &[b"pull-hg"];

const PULL_GIT: &[&[u8]] = &[b"pull-git"];

/// The objects of the commit of `ONE_CHANGESET`.
pub const ONE_COMMIT: &[u8] =
    b"ce013625030ba8dba906f756967f9e9ca394464a blob 6\nhello\n\n0976950c1fdbcb52435a433913017b\
    f044b3a58f tree 29\n100644 a\0\xce\x016%\x03\x0b\xa8\xdb\xa9\x06\xf7V\x96\x7f\x9e\x9c\
    \xa3\x94FJ\nfb8491d27293299d600326567e91d35289f99b8d commit 108\ntree 0976950c1fdbcb5243\
    5a433913017bf044b3a58f\nauthor Ann <ann@x> 0 +0000\ncommitter Ann <ann@x> 0 +0000\n\none\
    \n\n";

// `ONE_CHANGESET`; over it one with another line in the file `a` and a program `b`, and one with a symbolic link `c`; and the merge of both.
const FOUR_CHANGESETS: &[u8] =
    b"HG10UN\0\0\0\x9f\xa4\xeaK\x98z&~\x07\xd9\xe0\xd3v&\xd8\xca\x85\x09\x81Kv\0\0\0\0\0\0\0\0\
    \0\0\0\0\0\0\0\0\0\0\0\0\0\0\0\0\0\0\0\0\0\0\0\0\0\0\0\0\0\0\0\0\xa4\xeaK\x98z&~\x07\xd9\
    \xe0\xd3v&\xd8\xca\x85\x09\x81Kv\0\0\0\0\0\0\0\0\0\0\0?d51f7835c8978f5a11f9a33e09d3852ff\
    4979e7c\nAnn <ann@x>\n0 0\na\n\none\0\0\0\x9d\xe2\xecr\xee\x0f/\xb4\xd8\xe4\xcfn\xa1<B\
    \x91\x13#e\x86\xe3\xa4\xeaK\x98z&~\x07\xd9\xe0\xd3v&\xd8\xca\x85\x09\x81Kv\0\0\0\0\0\0\0\
    \0\0\0\0\0\0\0\0\0\0\0\0\0\xe2\xecr\xee\x0f/\xb4\xd8\xe4\xcfn\xa1<B\x91\x13#e\x86\xe3\0\
    \0\0\0\0\0\0?\0\0\0=4e55346da30ca2c157394b2cbe14359c2a8fee92\nAnn\n7 -3600\na\nb\n\ntwo\
    \0\0\0\xa1\xe8>\xd6\xe2z@\xe7\x0c$\x0c\xe0L\xaf\xa3\xca\x8c\xe5\x89\xf5\x81\xa4\xeaK\x98\
    z&~\x07\xd9\xe0\xd3v&\xd8\xca\x85\x09\x81Kv\0\0\0\0\0\0\0\0\0\0\0\0\0\0\0\0\0\0\0\0\xe8>\
    \xd6\xe2z@\xe7\x0c$\x0c\xe0L\xaf\xa3\xca\x8c\xe5\x89\xf5\x81\0\0\0\0\0\0\0=\0\0\0A6ebff6\
    cab70059c2ba8b6d5756c404682653d645\nAnn <ann@x>\n8 0\nc\n\nthree\0\0\0\x9f\\\xcd\x94pw\
    \x03\xc8!\xcct\xabw\x15\x99\x98-o+\x13\xe8\xe2\xecr\xee\x0f/\xb4\xd8\xe4\xcfn\xa1<B\x91\
    \x13#e\x86\xe3\xe8>\xd6\xe2z@\xe7\x0c$\x0c\xe0L\xaf\xa3\xca\x8c\xe5\x89\xf5\x81\\\xcd\
    \x94pw\x03\xc8!\xcct\xabw\x15\x99\x98-o+\x13\xe8\0\0\0\0\0\0\0A\0\0\0?0df87947ef69bc888f\
    db4c64a40804ee5b806dea\nAnn <ann@x>\n9 0\n\nmerge\0\0\0\0\0\0\0\x8b\xd5\x1fx5\xc8\x97\
    \x8fZ\x11\xf9\xa3>\x09\xd3\x85/\xf4\x97\x9e|\0\0\0\0\0\0\0\0\0\0\0\0\0\0\0\0\0\0\0\0\0\0\
    \0\0\0\0\0\0\0\0\0\0\0\0\0\0\0\0\0\0\xa4\xeaK\x98z&~\x07\xd9\xe0\xd3v&\xd8\xca\x85\x09\
    \x81Kv\0\0\0\0\0\0\0\0\0\0\0+a\02c186c8c5bc0df5af5b951afe407d803f9e6b8c9\n\0\0\0\xb7NU4m\
    \xa3\x0c\xa2\xc1W9K,\xbe\x145\x9c*\x8f\xee\x92\xd5\x1fx5\xc8\x97\x8fZ\x11\xf9\xa3>\x09\
    \xd3\x85/\xf4\x97\x9e|\0\0\0\0\0\0\0\0\0\0\0\0\0\0\0\0\0\0\0\0\xe2\xecr\xee\x0f/\xb4\xd8\
    \xe4\xcfn\xa1<B\x91\x13#e\x86\xe3\0\0\0\0\0\0\0+\0\0\0Wa\0c093b423870d8b2114889160cb1dee\
    55fd1cca9b\nb\09a65955b5eddd407b9dc5fceb05e99b1abc4a844x\n\0\0\0\xb7n\xbf\xf6\xca\xb7\0Y\
    \xc2\xba\x8bmWV\xc4\x04h&S\xd6E\xd5\x1fx5\xc8\x97\x8fZ\x11\xf9\xa3>\x09\xd3\x85/\xf4\x97\
    \x9e|\0\0\0\0\0\0\0\0\0\0\0\0\0\0\0\0\0\0\0\0\xe8>\xd6\xe2z@\xe7\x0c$\x0c\xe0L\xaf\xa3\
    \xca\x8c\xe5\x89\xf5\x81\0\0\0\0\0\0\0W\0\0\0Wa\02c186c8c5bc0df5af5b951afe407d803f9e6b8c\
    9\nc\0047b75c6d7a3ef6a2243bd0e99f94f6ea6683597l\n\0\0\0\xe3\x0d\xf8yG\xefi\xbc\x88\x8f\
    \xdbLd\xa4\x08\x04\xee[\x80m\xeaNU4m\xa3\x0c\xa2\xc1W9K,\xbe\x145\x9c*\x8f\xee\x92n\xbf\
    \xf6\xca\xb7\0Y\xc2\xba\x8bmWV\xc4\x04h&S\xd6E\\\xcd\x94pw\x03\xc8!\xcct\xabw\x15\x99\
    \x98-o+\x13\xe8\0\0\0\0\0\0\0W\0\0\0\x83a\0c093b423870d8b2114889160cb1dee55fd1cca9b\nb\0\
    9a65955b5eddd407b9dc5fceb05e99b1abc4a844x\nc\0047b75c6d7a3ef6a2243bd0e99f94f6ea6683597l\
    \n\0\0\0\0\0\0\0\x05a\0\0\0f,\x18l\x8c[\xc0\xdfZ\xf5\xb9Q\xaf\xe4\x07\xd8\x03\xf9\xe6\
    \xb8\xc9\0\0\0\0\0\0\0\0\0\0\0\0\0\0\0\0\0\0\0\0\0\0\0\0\0\0\0\0\0\0\0\0\0\0\0\0\0\0\0\0\
    \xa4\xeaK\x98z&~\x07\xd9\xe0\xd3v&\xd8\xca\x85\x09\x81Kv\0\0\0\0\0\0\0\0\0\0\0\x06hello\
    \n\0\0\0g\xc0\x93\xb4#\x87\x0d\x8b!\x14\x88\x91`\xcb\x1d\xeeU\xfd\x1c\xca\x9b,\x18l\x8c[\
    \xc0\xdfZ\xf5\xb9Q\xaf\xe4\x07\xd8\x03\xf9\xe6\xb8\xc9\0\0\0\0\0\0\0\0\0\0\0\0\0\0\0\0\0\
    \0\0\0\xe2\xecr\xee\x0f/\xb4\xd8\xe4\xcfn\xa1<B\x91\x13#e\x86\xe3\0\0\0\0\0\0\0\x06\0\0\
    \0\x07hello2\n\0\0\0\0\0\0\0\x05b\0\0\0c\x9ae\x95[^\xdd\xd4\x07\xb9\xdc_\xce\xb0^\x99\
    \xb1\xab\xc4\xa8D\0\0\0\0\0\0\0\0\0\0\0\0\0\0\0\0\0\0\0\0\0\0\0\0\0\0\0\0\0\0\0\0\0\0\0\
    \0\0\0\0\0\xe2\xecr\xee\x0f/\xb4\xd8\xe4\xcfn\xa1<B\x91\x13#e\x86\xe3\0\0\0\0\0\0\0\0\0\
    \0\0\x03#!\n\0\0\0\0\0\0\0\x05c\0\0\0a\x04{u\xc6\xd7\xa3\xefj\"C\xbd\x0e\x99\xf9On\xa6h5\
    \x97\0\0\0\0\0\0\0\0\0\0\0\0\0\0\0\0\0\0\0\0\0\0\0\0\0\0\0\0\0\0\0\0\0\0\0\0\0\0\0\0\xe8\
    >\xd6\xe2z@\xe7\x0c$\x0c\xe0L\xaf\xa3\xca\x8c\xe5\x89\xf5\x81\0\0\0\0\0\0\0\0\0\0\0\x01a\
    \0\0\0\0\0\0\0\0";

// The objects of their commits.
const FOUR_COMMITS: &[u8] =
    b"ce013625030ba8dba906f756967f9e9ca394464a blob 6\nhello\n\n0976950c1fdbcb52435a433913017b\
    f044b3a58f tree 29\n100644 a\0\xce\x016%\x03\x0b\xa8\xdb\xa9\x06\xf7V\x96\x7f\x9e\x9c\
    \xa3\x94FJ\nfb8491d27293299d600326567e91d35289f99b8d commit 108\ntree 0976950c1fdbcb5243\
    5a433913017bf044b3a58f\nauthor Ann <ann@x> 0 +0000\ncommitter Ann <ann@x> 0 +0000\n\none\
    \n\n14be0d41c639d701e0fe23e835b5fe9524b4459d blob 7\nhello2\n\n7218afe77e9bf34f86390549f\
    3008309e31dd9a6 blob 3\n#!\n\ndaa806f2ed921941fcb2e83741ef6db2bc3cd31e tree 58\n100644 a\
    \0\x14\xbe\x0dA\xc69\xd7\x01\xe0\xfe#\xe85\xb5\xfe\x95$\xb4E\x9d100755 b\0r\x18\xaf\xe7~\
    \x9b\xf3O\x869\x05I\xf3\0\x83\x09\xe3\x1d\xd9\xa6\nf4f502d982d3b195a389bc4628173e456b00c\
    57c commit 164\ntree daa806f2ed921941fcb2e83741ef6db2bc3cd31e\nparent fb8491d27293299d60\
    0326567e91d35289f99b8d\nauthor Ann <none@none> 7 +0100\ncommitter Ann <none@none> 7 +010\
    0\n\ntwo\n\n2e65efe2a145dda7ee51d1741299f848e5bf752e blob 1\na\n96d7d6acfe594abdb8ff6f23\
    b32cbebf83b967df tree 58\n100644 a\0\xce\x016%\x03\x0b\xa8\xdb\xa9\x06\xf7V\x96\x7f\x9e\
    \x9c\xa3\x94FJ120000 c\0.e\xef\xe2\xa1E\xdd\xa7\xeeQ\xd1t\x12\x99\xf8H\xe5\xbfu.\n41add1\
    c34afcf44472667bfe5a0d80c0ea5d32f7 commit 158\ntree 96d7d6acfe594abdb8ff6f23b32cbebf83b9\
    67df\nparent fb8491d27293299d600326567e91d35289f99b8d\nauthor Ann <ann@x> 8 +0000\ncommi\
    tter Ann <ann@x> 8 +0000\n\nthree\n\n9f5b335c48360e2c1c6473321807c559a88a037d tree 87\n1\
    00644 a\0\x14\xbe\x0dA\xc69\xd7\x01\xe0\xfe#\xe85\xb5\xfe\x95$\xb4E\x9d100755 b\0r\x18\
    \xaf\xe7~\x9b\xf3O\x869\x05I\xf3\0\x83\x09\xe3\x1d\xd9\xa6120000 c\0.e\xef\xe2\xa1E\xdd\
    \xa7\xeeQ\xd1t\x12\x99\xf8H\xe5\xbfu.\n7c6bb55530eb1e3b086de861f3daa18801baf876 commit 2\
    06\ntree 9f5b335c48360e2c1c6473321807c559a88a037d\nparent f4f502d982d3b195a389bc4628173e\
    456b00c57c\nparent 41add1c34afcf44472667bfe5a0d80c0ea5d32f7\nauthor Ann <ann@x> 9 +0000\
    \ncommitter Ann <ann@x> 9 +0000\n\nmerge\n\n";

// A changeset without files.
const NO_FILES: &[u8] =
    b"HG10UN\0\0\0\x9e\x95\x1e\xf8\xc9\x88\x18\x1du\xf8\xad\xe6u\xa8\x0b\x13=d%\x82\x01\0\0\0\
    \0\0\0\0\0\0\0\0\0\0\0\0\0\0\0\0\0\0\0\0\0\0\0\0\0\0\0\0\0\0\0\0\0\0\0\0\0\x95\x1e\xf8\
    \xc9\x88\x18\x1du\xf8\xad\xe6u\xa8\x0b\x13=d%\x82\x01\0\0\0\0\0\0\0\0\0\0\0>000000000000\
    0000000000000000000000000000\nAnn <ann@x>\n0 0\n\nnone\0\0\0\0\0\0\0\0\0\0\0\0";

// The objects of its commit.
const EMPTY_TREE_COMMIT: &[u8] =
    b"4b825dc642cb6eb9a060e54bf8d69288fbee4904 tree 0\n\n54d0bb09ef00863dbc338523cb32cedb5b506\
    9c9 commit 109\ntree 4b825dc642cb6eb9a060e54bf8d69288fbee4904\nauthor Ann <ann@x> 0 +000\
    0\ncommitter Ann <ann@x> 0 +0000\n\nnone\n\n";

// `ONE_CHANGESET` with an item of extras.
const WITH_EXTRAS: &[u8] =
    b"HG10UN\0\0\0\xadE\xc7\x14\x17\x84e<\x7f\x12\xd7\xa5i\xbae\x04\xaf\x92\x0b\xe3J\0\0\0\0\0\
    \0\0\0\0\0\0\0\0\0\0\0\0\0\0\0\0\0\0\0\0\0\0\0\0\0\0\0\0\0\0\0\0\0\0\0E\xc7\x14\x17\x84e\
    <\x7f\x12\xd7\xa5i\xbae\x04\xaf\x92\x0b\xe3J\0\0\0\0\0\0\0\0\0\0\0Md51f7835c8978f5a11f9a\
    33e09d3852ff4979e7c\nAnn <ann@x>\n0 0 branch:stable\na\n\none\0\0\0\0\0\0\0\x8b\xd5\x1fx\
    5\xc8\x97\x8fZ\x11\xf9\xa3>\x09\xd3\x85/\xf4\x97\x9e|\0\0\0\0\0\0\0\0\0\0\0\0\0\0\0\0\0\
    \0\0\0\0\0\0\0\0\0\0\0\0\0\0\0\0\0\0\0\0\0\0\0E\xc7\x14\x17\x84e<\x7f\x12\xd7\xa5i\xbae\
    \x04\xaf\x92\x0b\xe3J\0\0\0\0\0\0\0\0\0\0\0+a\x002c186c8c5bc0df5af5b951afe407d803f9e6b8c\
    9\n\0\0\0\0\0\0\0\x05a\0\0\0f,\x18l\x8c[\xc0\xdfZ\xf5\xb9Q\xaf\xe4\x07\xd8\x03\xf9\xe6\
    \xb8\xc9\0\0\0\0\0\0\0\0\0\0\0\0\0\0\0\0\0\0\0\0\0\0\0\0\0\0\0\0\0\0\0\0\0\0\0\0\0\0\0\0\
    E\xc7\x14\x17\x84e<\x7f\x12\xd7\xa5i\xbae\x04\xaf\x92\x0b\xe3J\0\0\0\0\0\0\0\0\0\0\0\x06\
    hello\n\0\0\0\0\0\0\0\0";

// `ONE_CHANGESET` with a manifest to which no changeset refers.
const WITH_AN_ORPHAN: &[u8] =
    b"HG10UN\0\0\0\x9f\xa4\xeaK\x98z&~\x07\xd9\xe0\xd3v&\xd8\xca\x85\x09\x81Kv\0\0\0\0\0\0\0\0\
    \0\0\0\0\0\0\0\0\0\0\0\0\0\0\0\0\0\0\0\0\0\0\0\0\0\0\0\0\0\0\0\0\xa4\xeaK\x98z&~\x07\xd9\
    \xe0\xd3v&\xd8\xca\x85\x09\x81Kv\0\0\0\0\0\0\0\0\0\0\0?d51f7835c8978f5a11f9a33e09d3852ff\
    4979e7c\nAnn <ann@x>\n0 0\na\n\none\0\0\0\0\0\0\0\x8b\xd5\x1fx5\xc8\x97\x8fZ\x11\xf9\xa3\
    >\x09\xd3\x85/\xf4\x97\x9e|\0\0\0\0\0\0\0\0\0\0\0\0\0\0\0\0\0\0\0\0\0\0\0\0\0\0\0\0\0\0\
    \0\0\0\0\0\0\0\0\0\0\xa4\xeaK\x98z&~\x07\xd9\xe0\xd3v&\xd8\xca\x85\x09\x81Kv\0\0\0\0\0\0\
    \0\0\0\0\0+a\x002c186c8c5bc0df5af5b951afe407d803f9e6b8c9\n\0\0\0\x8b\xf9\xefc(\x03\xd8 U\
    \x83/\xdfiq\xc8=\xe1\x8e~l\xff\0\0\0\0\0\0\0\0\0\0\0\0\0\0\0\0\0\0\0\0\0\0\0\0\0\0\0\0\0\
    \0\0\0\0\0\0\0\0\0\0\0\xa4\xeaK\x98z&~\x07\xd9\xe0\xd3v&\xd8\xca\x85\x09\x81Kv\0\0\0\0\0\
    \0\0+\0\0\0+b\x002c186c8c5bc0df5af5b951afe407d803f9e6b8c9\n\0\0\0\0\0\0\0\x05a\0\0\0f,\
    \x18l\x8c[\xc0\xdfZ\xf5\xb9Q\xaf\xe4\x07\xd8\x03\xf9\xe6\xb8\xc9\0\0\0\0\0\0\0\0\0\0\0\0\
    \0\0\0\0\0\0\0\0\0\0\0\0\0\0\0\0\0\0\0\0\0\0\0\0\0\0\0\0\xa4\xeaK\x98z&~\x07\xd9\xe0\xd3\
    v&\xd8\xca\x85\x09\x81Kv\0\0\0\0\0\0\0\0\0\0\0\x06hello\n\0\0\0\0\0\0\0\0";

// A changeset without its manifest.
const WITHOUT_ITS_MANIFEST: &[u8] =
    b"HG10UN\0\0\0\x99T\xe4\x13\x895\x82\x12\xbf\xdd\xdbd\xd9n23\x9d\xa5.\xc1j\0\0\0\0\0\0\0\0\
    \0\0\0\0\0\0\0\0\0\0\0\0\0\0\0\0\0\0\0\0\0\0\0\0\0\0\0\0\0\0\0\0T\xe4\x13\x895\x82\x12\
    \xbf\xdd\xdbd\xd9n23\x9d\xa5.\xc1j\0\0\0\0\0\0\0\0\0\0\0980d410a90e94ba756a8c6edb4661a6c\
    8c94623a6\nAnn\n0 0\na\n\nfirst\0\0\0\0\0\0\0\0\0\0\0\0";

// The same with its manifest, without its file.
const WITHOUT_ITS_FILE: &[u8] =
    b"HG10UN\0\0\0\x99T\xe4\x13\x895\x82\x12\xbf\xdd\xdbd\xd9n23\x9d\xa5.\xc1j\0\0\0\0\0\0\0\0\
    \0\0\0\0\0\0\0\0\0\0\0\0\0\0\0\0\0\0\0\0\0\0\0\0\0\0\0\0\0\0\0\0T\xe4\x13\x895\x82\x12\
    \xbf\xdd\xdbd\xd9n23\x9d\xa5.\xc1j\0\0\0\0\0\0\0\0\0\0\0980d410a90e94ba756a8c6edb4661a6c\
    8c94623a6\nAnn\n0 0\na\n\nfirst\0\0\0\0\0\0\0\x8b\x80\xd4\x10\xa9\x0e\x94\xbauj\x8cn\xdb\
    Fa\xa6\xc8\xc9F#\xa6\0\0\0\0\0\0\0\0\0\0\0\0\0\0\0\0\0\0\0\0\0\0\0\0\0\0\0\0\0\0\0\0\0\0\
    \0\0\0\0\0\0T\xe4\x13\x895\x82\x12\xbf\xdd\xdbd\xd9n23\x9d\xa5.\xc1j\0\0\0\0\0\0\0\0\0\0\
    \0+a\03ad15d6a027e0547c2cae3fe5bceaeb088eb8870\n\0\0\0\0\0\0\0\0";

// `ONE_COMMIT` with a message that has no LF.
const WITHOUT_LF: &[u8] =
    b"ce013625030ba8dba906f756967f9e9ca394464a blob 6\nhello\n\n0976950c1fdbcb52435a433913017b\
    f044b3a58f tree 29\n100644 a\0\xce\x016%\x03\x0b\xa8\xdb\xa9\x06\xf7V\x96\x7f\x9e\x9c\
    \xa3\x94FJ\n55c7a7f71b0080e5f0c2ba9f3ff592b78fda111d commit 107\ntree 0976950c1fdbcb5243\
    5a433913017bf044b3a58f\nauthor Ann <ann@x> 0 +0000\ncommitter Ann <ann@x> 0 +0000\n\none\
    \n";

// `ONE_COMMIT` over a parent that isn't there.
const WITHOUT_ITS_PARENT: &[u8] =
    b"ce013625030ba8dba906f756967f9e9ca394464a blob 6\nhello\n\n0976950c1fdbcb52435a433913017b\
    f044b3a58f tree 29\n100644 a\0\xce\x016%\x03\x0b\xa8\xdb\xa9\x06\xf7V\x96\x7f\x9e\x9c\
    \xa3\x94FJ\na47772f89b9be616fd157b1f69f047eda3254b08 commit 156\ntree 0976950c1fdbcb5243\
    5a433913017bf044b3a58f\nparent 1212121212121212121212121212121212121212\nauthor Ann <ann\
    @x> 0 +0000\ncommitter Ann <ann@x> 0 +0000\n\none\n\n";

// The commit of `ONE_COMMIT` alone.
const WITHOUT_ITS_TREE: &[u8] =
    b"fb8491d27293299d600326567e91d35289f99b8d commit 108\ntree 0976950c1fdbcb52435a433913017b\
    f044b3a58f\nauthor Ann <ann@x> 0 +0000\ncommitter Ann <ann@x> 0 +0000\n\none\n\n";

// The objects of the commit of `WITH_EXTRAS`.
const BRANCH_COMMIT: &[u8] =
    b"ce013625030ba8dba906f756967f9e9ca394464a blob 6\nhello\n\n0976950c1fdbcb52435a433913\
    017bf044b3a58f tree 29\n100644 a\0\xce\x016%\x03\x0b\xa8\xdb\xa9\x06\xf7V\x96\x7f\x9e\
    \x9c\xa3\x94FJ\ne1e531e8507d6787ca4d870bc2bb9c7d89fec081 commit 131\ntree 0976950c1fdb\
    cb52435a433913017bf044b3a58f\nauthor Ann <ann@x> 0 +0000\ncommitter Ann <ann@x> 0 +000\
    0\nHG:extra branch stable\n\none\n\n";

// The changeset of `WITHOUT_LF`.
const MESSAGE_CHANGESET: &[u8] =
    b"HG10UN\0\0\0\xb2\xabl\xe6\x8d\x12\xec\x0c\xbe\xf4}\xed\x0d\x8bJ\x95:\xa5\xe2xW\0\0\0\
    \0\0\0\0\0\0\0\0\0\0\0\0\0\0\0\0\0\0\0\0\0\0\0\0\0\0\0\0\0\0\0\0\0\0\0\0\0\xabl\xe6\
    \x8d\x12\xec\x0c\xbe\xf4}\xed\x0d\x8bJ\x95:\xa5\xe2xW\0\0\0\0\0\0\0\0\0\0\0Rd51f7835c8\
    978f5a11f9a33e09d3852ff4979e7c\nAnn <ann@x>\n0 0 hg-git-message:one\na\n\none\0\0\0\0\
    \0\0\0\x8b\xd5\x1fx5\xc8\x97\x8fZ\x11\xf9\xa3>\x09\xd3\x85/\xf4\x97\x9e|\0\0\0\0\0\0\0\
    \0\0\0\0\0\0\0\0\0\0\0\0\0\0\0\0\0\0\0\0\0\0\0\0\0\0\0\0\0\0\0\0\0\xabl\xe6\x8d\x12\
    \xec\x0c\xbe\xf4}\xed\x0d\x8bJ\x95:\xa5\xe2xW\0\0\0\0\0\0\0\0\0\0\0+a\02c186c8c5bc0df5\
    af5b951afe407d803f9e6b8c9\n\0\0\0\0\0\0\0\x05a\0\0\0f,\x18l\x8c[\xc0\xdfZ\xf5\xb9Q\xaf\
    \xe4\x07\xd8\x03\xf9\xe6\xb8\xc9\0\0\0\0\0\0\0\0\0\0\0\0\0\0\0\0\0\0\0\0\0\0\0\0\0\0\0\
    \0\0\0\0\0\0\0\0\0\0\0\0\0\xabl\xe6\x8d\x12\xec\x0c\xbe\xf4}\xed\x0d\x8bJ\x95:\xa5\xe2\
    xW\0\0\0\0\0\0\0\0\0\0\0\x06hello\n\0\0\0\0\0\0\0\0";

const PLAIN: &[Row] = &[
    Row(PULL_HG, LEAST, Answer::Done(b"")),
    Row(PULL_HG, ONE_CHANGESET, Answer::Done(ONE_COMMIT)),
    Row(PULL_GIT, b"", Answer::Done(LEAST)),
    Row(PULL_GIT, ONE_COMMIT, Answer::Done(ONE_CHANGESET)),
];

#[test]
fn what_is_plain_comes_over(rt: HostRuntime) -> Result<(), Fail> {
    check(&rt, PLAIN)
}

const MEMBERS: &[Row] = &[
    Row(PULL_HG, FOUR_CHANGESETS, Answer::Done(FOUR_COMMITS)),
    Row(PULL_GIT, FOUR_COMMITS, Answer::Done(FOUR_CHANGESETS)),
    Row(PULL_HG, NO_FILES, Answer::Done(EMPTY_TREE_COMMIT)),
    Row(PULL_GIT, EMPTY_TREE_COMMIT, Answer::Done(NO_FILES)),
];

#[test]
fn children_merges_and_no_files_come_over(rt: HostRuntime) -> Result<(), Fail> {
    check(&rt, MEMBERS)
}

const MARKED: &[Row] = &[
    Row(PULL_HG, WITH_EXTRAS, Answer::Done(BRANCH_COMMIT)),
    Row(PULL_GIT, BRANCH_COMMIT, Answer::Done(WITH_EXTRAS)),
    Row(PULL_GIT, WITHOUT_LF, Answer::Done(MESSAGE_CHANGESET)),
    Row(PULL_HG, MESSAGE_CHANGESET, Answer::Done(WITHOUT_LF)),
    Row(PULL_HG, RENAME_CHANGESETS, Answer::Done(RENAME_COMMITS)),
    Row(PULL_GIT, RENAME_COMMITS, Answer::Done(RENAME_CHANGESETS)),
];

#[test]
fn what_needs_marks_comes_over(rt: HostRuntime) -> Result<(), Fail> {
    check(&rt, MARKED)
}

const LINKED: &[Row] = &[
    Row(PULL_GIT, OCTOPUS_COMMITS, Answer::Done(OCTOPUS_CHANGESETS)),
    Row(PULL_HG, OCTOPUS_CHANGESETS, Answer::Done(OCTOPUS_COMMITS)),
];

#[test]
fn four_parents_come_over(rt: HostRuntime) -> Result<(), Fail> {
    check(&rt, LINKED)
}

const GITLINKS: &[Row] = &[
    Row(PULL_GIT, GITLINK_COMMIT, Answer::Done(GITLINK_CHANGESET)),
    Row(PULL_HG, GITLINK_CHANGESET, Answer::Done(GITLINK_COMMIT)),
    Row(
        PULL_GIT,
        KEPT_GITLINK_COMMITS,
        Answer::Done(KEPT_GITLINK_CHANGESETS),
    ),
    Row(
        PULL_HG,
        KEPT_GITLINK_CHANGESETS,
        Answer::Done(KEPT_GITLINK_COMMITS),
    ),
];

#[test]
fn gitlinks_come_over(rt: HostRuntime) -> Result<(), Fail> {
    check(&rt, GITLINKS)
}

const REFUSED: &[Row] = &[
    Row(
        PULL_HG,
        WITH_AN_ORPHAN,
        Answer::Refused(b"refused Orphan f9ef632803d82055832fdf6971c83de18e7e6cff 308\n"),
    ),
    Row(
        PULL_HG,
        WITHOUT_ITS_MANIFEST,
        Answer::Refused(b"refused ManifestUnknown 54e41389358212bfdddb64d96e32339da52ec16a 6\n"),
    ),
    Row(
        PULL_HG,
        WITHOUT_ITS_FILE,
        Answer::Refused(b"refused FileUnknown 54e41389358212bfdddb64d96e32339da52ec16a 6\n"),
    ),
    Row(
        PULL_GIT,
        WITHOUT_ITS_PARENT,
        Answer::Refused(b"refused ParentUnknown a47772f89b9be616fd157b1f69f047eda3254b08 134\n"),
    ),
    Row(
        PULL_GIT,
        WITHOUT_ITS_TREE,
        Answer::Refused(b"refused ObjectUnknown fb8491d27293299d600326567e91d35289f99b8d 0\n"),
    ),
    Row(
        PULL_HG,
        LINKS_ALONE,
        Answer::Refused(b"refused DanglingLink a1759422d04f8c6e500d88a3b5ec49bfe1e9309d 642\n"),
    ),
];

#[test]
fn what_lacks_a_part_is_refused(rt: HostRuntime) -> Result<(), Fail> {
    check(&rt, REFUSED)
}

const WRONG_PARENTS: &[Row] = &[
    Row(
        PULL_HG,
        OVER_A_LINK,
        Answer::Refused(b"refused ParentIsLink c5ccf7e0a8a1c6126fe9930870e3980051363d6b 1078\n"),
    ),
    Row(
        PULL_HG,
        FILE_BEFORE_ITS_PARENT,
        Answer::Refused(b"refused FileParentLate d9603e6b53c0d0c2e95f2ad582b1f9b428a09035 6\n"),
    ),
    Row(
        PULL_HG,
        MANIFEST_BEFORE_ITS_PARENT,
        Answer::Refused(b"refused ManifestParentLate 0ae650c5e9815ec586e7bb3449f07345a5f9adc7 6\n"),
    ),
];

#[test]
fn what_stands_over_a_wrong_parent_is_refused(rt: HostRuntime) -> Result<(), Fail> {
    check(&rt, WRONG_PARENTS)
}

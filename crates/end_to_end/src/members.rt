// Members that need links, a residue or the mark of a copy, and members that come before what they stand over.

/// The objects of a commit of four parents, all of the tree of `ONE_CHANGESET`.
pub const OCTOPUS_COMMITS: &[u8] =
    b"ce013625030ba8dba906f756967f9e9ca394464a blob 6\nhello\n\n0976950c1fdbcb52435a4339130\
    17bf044b3a58f tree 29\n100644 a\0\xce\x016%\x03\x0b\xa8\xdb\xa9\x06\xf7V\x96\x7f\x9e\
    \x9c\xa3\x94FJ\nfb8491d27293299d600326567e91d35289f99b8d commit 108\ntree 0976950c1fdbc\
    b52435a433913017bf044b3a58f\nauthor Ann <ann@x> 0 +0000\ncommitter Ann <ann@x> 0 +0000\
    \n\none\n\n52ab5e206caf0a948a71b8d6b8b22a92969ff62d commit 108\ntree 0976950c1fdbcb5243\
    5a433913017bf044b3a58f\nauthor Ann <ann@x> 1 +0000\ncommitter Ann <ann@x> 1 +0000\n\non\
    e\n\n8dea4dd488b380f3113f336e7df924304ffdd072 commit 108\ntree 0976950c1fdbcb52435a4339\
    13017bf044b3a58f\nauthor Ann <ann@x> 2 +0000\ncommitter Ann <ann@x> 2 +0000\n\none\n\n5\
    dcbce91f1b95f9f7877a444b097957846e306bd commit 108\ntree 0976950c1fdbcb52435a433913017b\
    f044b3a58f\nauthor Ann <ann@x> 3 +0000\ncommitter Ann <ann@x> 3 +0000\n\none\n\n1b78cec\
    25a5f194c66ea29ae31f29f9114f5f842 commit 300\ntree 0976950c1fdbcb52435a433913017bf044b3\
    a58f\nparent fb8491d27293299d600326567e91d35289f99b8d\nparent 52ab5e206caf0a948a71b8d6b\
    8b22a92969ff62d\nparent 8dea4dd488b380f3113f336e7df924304ffdd072\nparent 5dcbce91f1b95f\
    9f7877a444b097957846e306bd\nauthor Ann <ann@x> 0 +0000\ncommitter Ann <ann@x> 0 +0000\n\
    \none\n\n";

/// The changesets of its parents, two links and the changeset over them.
pub const OCTOPUS_CHANGESETS: &[u8] =
    b"HG10UN\0\0\0\x9f\xa4\xeaK\x98z&~\x07\xd9\xe0\xd3v&\xd8\xca\x85\x09\x81Kv\0\0\0\0\0\0\
    \0\0\0\0\0\0\0\0\0\0\0\0\0\0\0\0\0\0\0\0\0\0\0\0\0\0\0\0\0\0\0\0\0\0\xa4\xeaK\x98z&~\
    \x07\xd9\xe0\xd3v&\xd8\xca\x85\x09\x81Kv\0\0\0\0\0\0\0\0\0\0\0?d51f7835c8978f5a11f9a33e\
    09d3852ff4979e7c\nAnn <ann@x>\n0 0\na\n\none\0\0\0\x9f\x18\xa3(\x8c\xc5\xe4\xa3b\x82`\
    \xd2\xbaB\xa6\x89I\x0c\xfb\xa3~\0\0\0\0\0\0\0\0\0\0\0\0\0\0\0\0\0\0\0\0\0\0\0\0\0\0\0\0\
    \0\0\0\0\0\0\0\0\0\0\0\0\x18\xa3(\x8c\xc5\xe4\xa3b\x82`\xd2\xbaB\xa6\x89I\x0c\xfb\xa3~\
    \0\0\0\0\0\0\0?\0\0\0?d51f7835c8978f5a11f9a33e09d3852ff4979e7c\nAnn <ann@x>\n1 0\na\n\n\
    one\0\0\0\x9f\xc8\xc7X\xa7\xafY\xe2  \x0e\x10\xaa\xb2N\xe1\xef\xbb\xdf{\xb3\0\0\0\0\0\0\
    \0\0\0\0\0\0\0\0\0\0\0\0\0\0\0\0\0\0\0\0\0\0\0\0\0\0\0\0\0\0\0\0\0\0\xc8\xc7X\xa7\xafY\
    \xe2  \x0e\x10\xaa\xb2N\xe1\xef\xbb\xdf{\xb3\0\0\0\0\0\0\0?\0\0\0?d51f7835c8978f5a11f9a\
    33e09d3852ff4979e7c\nAnn <ann@x>\n2 0\na\n\none\0\0\0\x9f\x91W\x04\x98\xe2\xeel\x1b\xa6\
    C2i}2m\xa3\\R\xd9\xc1\0\0\0\0\0\0\0\0\0\0\0\0\0\0\0\0\0\0\0\0\0\0\0\0\0\0\0\0\0\0\0\0\0\
    \0\0\0\0\0\0\0\x91W\x04\x98\xe2\xeel\x1b\xa6C2i}2m\xa3\\R\xd9\xc1\0\0\0\0\0\0\0?\0\0\0?\
    d51f7835c8978f5a11f9a33e09d3852ff4979e7c\nAnn <ann@x>\n3 0\na\n\none\0\0\0\xda\xa1u\x94\
    \"\xd0O\x8cnP\x0d\x88\xa3\xb5\xecI\xbf\xe1\xe90\x9d\xa4\xeaK\x98z&~\x07\xd9\xe0\xd3v&\
    \xd8\xca\x85\x09\x81Kv\x18\xa3(\x8c\xc5\xe4\xa3b\x82`\xd2\xbaB\xa6\x89I\x0c\xfb\xa3~\
    \xa1u\x94\"\xd0O\x8cnP\x0d\x88\xa3\xb5\xecI\xbf\xe1\xe90\x9d\0\0\0\0\0\0\0?\0\0\0zd51f7\
    835c8978f5a11f9a33e09d3852ff4979e7c\nhg-git\n0 0 hg-git-link:1b78cec25a5f194c66ea29ae31\
    f29f9114f5f842:1:4\n\noctopus link\0\0\0\xdak\xd0\xed\xbf\xd9.\xe5\x83u\xee\x18\xd4\x82\
    \x19e\xa3\x9bX\xc6\x7f\xa1u\x94\"\xd0O\x8cnP\x0d\x88\xa3\xb5\xecI\xbf\xe1\xe90\x9d\xc8\
    \xc7X\xa7\xafY\xe2  \x0e\x10\xaa\xb2N\xe1\xef\xbb\xdf{\xb3k\xd0\xed\xbf\xd9.\xe5\x83u\
    \xee\x18\xd4\x82\x19e\xa3\x9bX\xc6\x7f\0\0\0\0\0\0\0z\0\0\0zd51f7835c8978f5a11f9a33e09d\
    3852ff4979e7c\nhg-git\n0 0 hg-git-link:1b78cec25a5f194c66ea29ae31f29f9114f5f842:2:4\n\n\
    octopus link\0\0\0\xae\xc6\x99\x16\x92]\x02\x11\x03\xc1\xa3\xabL}Sr<\xe6\xa4\x7f7k\xd0\
    \xed\xbf\xd9.\xe5\x83u\xee\x18\xd4\x82\x19e\xa3\x9bX\xc6\x7f\x91W\x04\x98\xe2\xeel\x1b\
    \xa6C2i}2m\xa3\\R\xd9\xc1\xc6\x99\x16\x92]\x02\x11\x03\xc1\xa3\xabL}Sr<\xe6\xa4\x7f7\0\
    \0\0\0\0\0\0z\0\0\0Nd51f7835c8978f5a11f9a33e09d3852ff4979e7c\nAnn <ann@x>\n0 0 hg-git-p\
    arents:4\n\none\0\0\0\0\0\0\0\x8b\xd5\x1fx5\xc8\x97\x8fZ\x11\xf9\xa3>\x09\xd3\x85/\xf4\
    \x97\x9e|\0\0\0\0\0\0\0\0\0\0\0\0\0\0\0\0\0\0\0\0\0\0\0\0\0\0\0\0\0\0\0\0\0\0\0\0\0\0\0\
    \0\xa4\xeaK\x98z&~\x07\xd9\xe0\xd3v&\xd8\xca\x85\x09\x81Kv\0\0\0\0\0\0\0\0\0\0\0+a\02c1\
    86c8c5bc0df5af5b951afe407d803f9e6b8c9\n\0\0\0\0\0\0\0\x05a\0\0\0f,\x18l\x8c[\xc0\xdfZ\
    \xf5\xb9Q\xaf\xe4\x07\xd8\x03\xf9\xe6\xb8\xc9\0\0\0\0\0\0\0\0\0\0\0\0\0\0\0\0\0\0\0\0\0\
    \0\0\0\0\0\0\0\0\0\0\0\0\0\0\0\0\0\0\0\xa4\xeaK\x98z&~\x07\xd9\xe0\xd3v&\xd8\xca\x85\
    \x09\x81Kv\0\0\0\0\0\0\0\0\0\0\0\x06hello\n\0\0\0\0\0\0\0\0";

/// `OCTOPUS_CHANGESETS` without its last changeset.
pub const LINKS_ALONE: &[u8] =
    b"HG10UN\0\0\0\x9f\xa4\xeaK\x98z&~\x07\xd9\xe0\xd3v&\xd8\xca\x85\x09\x81Kv\0\0\0\0\0\0\
    \0\0\0\0\0\0\0\0\0\0\0\0\0\0\0\0\0\0\0\0\0\0\0\0\0\0\0\0\0\0\0\0\0\0\xa4\xeaK\x98z&~\
    \x07\xd9\xe0\xd3v&\xd8\xca\x85\x09\x81Kv\0\0\0\0\0\0\0\0\0\0\0?d51f7835c8978f5a11f9a33e\
    09d3852ff4979e7c\nAnn <ann@x>\n0 0\na\n\none\0\0\0\x9f\x18\xa3(\x8c\xc5\xe4\xa3b\x82`\
    \xd2\xbaB\xa6\x89I\x0c\xfb\xa3~\0\0\0\0\0\0\0\0\0\0\0\0\0\0\0\0\0\0\0\0\0\0\0\0\0\0\0\0\
    \0\0\0\0\0\0\0\0\0\0\0\0\x18\xa3(\x8c\xc5\xe4\xa3b\x82`\xd2\xbaB\xa6\x89I\x0c\xfb\xa3~\
    \0\0\0\0\0\0\0?\0\0\0?d51f7835c8978f5a11f9a33e09d3852ff4979e7c\nAnn <ann@x>\n1 0\na\n\n\
    one\0\0\0\x9f\xc8\xc7X\xa7\xafY\xe2  \x0e\x10\xaa\xb2N\xe1\xef\xbb\xdf{\xb3\0\0\0\0\0\0\
    \0\0\0\0\0\0\0\0\0\0\0\0\0\0\0\0\0\0\0\0\0\0\0\0\0\0\0\0\0\0\0\0\0\0\xc8\xc7X\xa7\xafY\
    \xe2  \x0e\x10\xaa\xb2N\xe1\xef\xbb\xdf{\xb3\0\0\0\0\0\0\0?\0\0\0?d51f7835c8978f5a11f9a\
    33e09d3852ff4979e7c\nAnn <ann@x>\n2 0\na\n\none\0\0\0\x9f\x91W\x04\x98\xe2\xeel\x1b\xa6\
    C2i}2m\xa3\\R\xd9\xc1\0\0\0\0\0\0\0\0\0\0\0\0\0\0\0\0\0\0\0\0\0\0\0\0\0\0\0\0\0\0\0\0\0\
    \0\0\0\0\0\0\0\x91W\x04\x98\xe2\xeel\x1b\xa6C2i}2m\xa3\\R\xd9\xc1\0\0\0\0\0\0\0?\0\0\0?\
    d51f7835c8978f5a11f9a33e09d3852ff4979e7c\nAnn <ann@x>\n3 0\na\n\none\0\0\0\xda\xa1u\x94\
    \"\xd0O\x8cnP\x0d\x88\xa3\xb5\xecI\xbf\xe1\xe90\x9d\xa4\xeaK\x98z&~\x07\xd9\xe0\xd3v&\
    \xd8\xca\x85\x09\x81Kv\x18\xa3(\x8c\xc5\xe4\xa3b\x82`\xd2\xbaB\xa6\x89I\x0c\xfb\xa3~\
    \xa1u\x94\"\xd0O\x8cnP\x0d\x88\xa3\xb5\xecI\xbf\xe1\xe90\x9d\0\0\0\0\0\0\0?\0\0\0zd51f7\
    835c8978f5a11f9a33e09d3852ff4979e7c\nhg-git\n0 0 hg-git-link:1b78cec25a5f194c66ea29ae31\
    f29f9114f5f842:1:4\n\noctopus link\0\0\0\xdak\xd0\xed\xbf\xd9.\xe5\x83u\xee\x18\xd4\x82\
    \x19e\xa3\x9bX\xc6\x7f\xa1u\x94\"\xd0O\x8cnP\x0d\x88\xa3\xb5\xecI\xbf\xe1\xe90\x9d\xc8\
    \xc7X\xa7\xafY\xe2  \x0e\x10\xaa\xb2N\xe1\xef\xbb\xdf{\xb3k\xd0\xed\xbf\xd9.\xe5\x83u\
    \xee\x18\xd4\x82\x19e\xa3\x9bX\xc6\x7f\0\0\0\0\0\0\0z\0\0\0zd51f7835c8978f5a11f9a33e09d\
    3852ff4979e7c\nhg-git\n0 0 hg-git-link:1b78cec25a5f194c66ea29ae31f29f9114f5f842:2:4\n\n\
    octopus link\0\0\0\0\0\0\0\x8b\xd5\x1fx5\xc8\x97\x8fZ\x11\xf9\xa3>\x09\xd3\x85/\xf4\x97\
    \x9e|\0\0\0\0\0\0\0\0\0\0\0\0\0\0\0\0\0\0\0\0\0\0\0\0\0\0\0\0\0\0\0\0\0\0\0\0\0\0\0\0\
    \xa4\xeaK\x98z&~\x07\xd9\xe0\xd3v&\xd8\xca\x85\x09\x81Kv\0\0\0\0\0\0\0\0\0\0\0+a\02c186\
    c8c5bc0df5af5b951afe407d803f9e6b8c9\n\0\0\0\0\0\0\0\x05a\0\0\0f,\x18l\x8c[\xc0\xdfZ\xf5\
    \xb9Q\xaf\xe4\x07\xd8\x03\xf9\xe6\xb8\xc9\0\0\0\0\0\0\0\0\0\0\0\0\0\0\0\0\0\0\0\0\0\0\0\
    \0\0\0\0\0\0\0\0\0\0\0\0\0\0\0\0\0\xa4\xeaK\x98z&~\x07\xd9\xe0\xd3v&\xd8\xca\x85\x09\
    \x81Kv\0\0\0\0\0\0\0\0\0\0\0\x06hello\n\0\0\0\0\0\0\0\0";

/// `LINKS_ALONE` with another changeset over the second link.
pub const OVER_A_LINK: &[u8] =
    b"HG10UN\0\0\0\x9f\xa4\xeaK\x98z&~\x07\xd9\xe0\xd3v&\xd8\xca\x85\x09\x81Kv\0\0\0\0\0\0\
    \0\0\0\0\0\0\0\0\0\0\0\0\0\0\0\0\0\0\0\0\0\0\0\0\0\0\0\0\0\0\0\0\0\0\xa4\xeaK\x98z&~\
    \x07\xd9\xe0\xd3v&\xd8\xca\x85\x09\x81Kv\0\0\0\0\0\0\0\0\0\0\0?d51f7835c8978f5a11f9a33e\
    09d3852ff4979e7c\nAnn <ann@x>\n0 0\na\n\none\0\0\0\x9f\x18\xa3(\x8c\xc5\xe4\xa3b\x82`\
    \xd2\xbaB\xa6\x89I\x0c\xfb\xa3~\0\0\0\0\0\0\0\0\0\0\0\0\0\0\0\0\0\0\0\0\0\0\0\0\0\0\0\0\
    \0\0\0\0\0\0\0\0\0\0\0\0\x18\xa3(\x8c\xc5\xe4\xa3b\x82`\xd2\xbaB\xa6\x89I\x0c\xfb\xa3~\
    \0\0\0\0\0\0\0?\0\0\0?d51f7835c8978f5a11f9a33e09d3852ff4979e7c\nAnn <ann@x>\n1 0\na\n\n\
    one\0\0\0\x9f\xc8\xc7X\xa7\xafY\xe2  \x0e\x10\xaa\xb2N\xe1\xef\xbb\xdf{\xb3\0\0\0\0\0\0\
    \0\0\0\0\0\0\0\0\0\0\0\0\0\0\0\0\0\0\0\0\0\0\0\0\0\0\0\0\0\0\0\0\0\0\xc8\xc7X\xa7\xafY\
    \xe2  \x0e\x10\xaa\xb2N\xe1\xef\xbb\xdf{\xb3\0\0\0\0\0\0\0?\0\0\0?d51f7835c8978f5a11f9a\
    33e09d3852ff4979e7c\nAnn <ann@x>\n2 0\na\n\none\0\0\0\x9f\x91W\x04\x98\xe2\xeel\x1b\xa6\
    C2i}2m\xa3\\R\xd9\xc1\0\0\0\0\0\0\0\0\0\0\0\0\0\0\0\0\0\0\0\0\0\0\0\0\0\0\0\0\0\0\0\0\0\
    \0\0\0\0\0\0\0\x91W\x04\x98\xe2\xeel\x1b\xa6C2i}2m\xa3\\R\xd9\xc1\0\0\0\0\0\0\0?\0\0\0?\
    d51f7835c8978f5a11f9a33e09d3852ff4979e7c\nAnn <ann@x>\n3 0\na\n\none\0\0\0\xda\xa1u\x94\
    \"\xd0O\x8cnP\x0d\x88\xa3\xb5\xecI\xbf\xe1\xe90\x9d\xa4\xeaK\x98z&~\x07\xd9\xe0\xd3v&\
    \xd8\xca\x85\x09\x81Kv\x18\xa3(\x8c\xc5\xe4\xa3b\x82`\xd2\xbaB\xa6\x89I\x0c\xfb\xa3~\
    \xa1u\x94\"\xd0O\x8cnP\x0d\x88\xa3\xb5\xecI\xbf\xe1\xe90\x9d\0\0\0\0\0\0\0?\0\0\0zd51f7\
    835c8978f5a11f9a33e09d3852ff4979e7c\nhg-git\n0 0 hg-git-link:1b78cec25a5f194c66ea29ae31\
    f29f9114f5f842:1:4\n\noctopus link\0\0\0\xdak\xd0\xed\xbf\xd9.\xe5\x83u\xee\x18\xd4\x82\
    \x19e\xa3\x9bX\xc6\x7f\xa1u\x94\"\xd0O\x8cnP\x0d\x88\xa3\xb5\xecI\xbf\xe1\xe90\x9d\xc8\
    \xc7X\xa7\xafY\xe2  \x0e\x10\xaa\xb2N\xe1\xef\xbb\xdf{\xb3k\xd0\xed\xbf\xd9.\xe5\x83u\
    \xee\x18\xd4\x82\x19e\xa3\x9bX\xc6\x7f\0\0\0\0\0\0\0z\0\0\0zd51f7835c8978f5a11f9a33e09d\
    3852ff4979e7c\nhg-git\n0 0 hg-git-link:1b78cec25a5f194c66ea29ae31f29f9114f5f842:2:4\n\n\
    octopus link\0\0\0\xa5\xc5\xcc\xf7\xe0\xa8\xa1\xc6\x12o\xe9\x93\x08p\xe3\x98\0Q6=kk\xd0\
    \xed\xbf\xd9.\xe5\x83u\xee\x18\xd4\x82\x19e\xa3\x9bX\xc6\x7f\0\0\0\0\0\0\0\0\0\0\0\0\0\
    \0\0\0\0\0\0\0\xc5\xcc\xf7\xe0\xa8\xa1\xc6\x12o\xe9\x93\x08p\xe3\x98\0Q6=k\0\0\0\0\0\0\
    \0z\0\0\0E0000000000000000000000000000000000000000\nAnn <ann@x>\n0 0\n\nover a link\0\0\
    \0\0\0\0\0\x8b\xd5\x1fx5\xc8\x97\x8fZ\x11\xf9\xa3>\x09\xd3\x85/\xf4\x97\x9e|\0\0\0\0\0\
    \0\0\0\0\0\0\0\0\0\0\0\0\0\0\0\0\0\0\0\0\0\0\0\0\0\0\0\0\0\0\0\0\0\0\0\xa4\xeaK\x98z&~\
    \x07\xd9\xe0\xd3v&\xd8\xca\x85\x09\x81Kv\0\0\0\0\0\0\0\0\0\0\0+a\02c186c8c5bc0df5af5b95\
    1afe407d803f9e6b8c9\n\0\0\0\0\0\0\0\x05a\0\0\0f,\x18l\x8c[\xc0\xdfZ\xf5\xb9Q\xaf\xe4\
    \x07\xd8\x03\xf9\xe6\xb8\xc9\0\0\0\0\0\0\0\0\0\0\0\0\0\0\0\0\0\0\0\0\0\0\0\0\0\0\0\0\0\
    \0\0\0\0\0\0\0\0\0\0\0\xa4\xeaK\x98z&~\x07\xd9\xe0\xd3v&\xd8\xca\x85\x09\x81Kv\0\0\0\0\
    \0\0\0\0\0\0\0\x06hello\n\0\0\0\0\0\0\0\0";

/// The objects of a commit whose tree is a gitlink alone.
pub const GITLINK_COMMIT: &[u8] =
    b"572e85c9899d5fb69110eab1df80bed6b9991abe tree 31\n160000 lib\0\x11\x11\x11\x11\x11\
    \x11\x11\x11\x11\x11\x11\x11\x11\x11\x11\x11\x11\x11\x11\x11\n9dc80ec69df61858f407ba27a\
    64bee06b608f43d commit 108\ntree 572e85c9899d5fb69110eab1df80bed6b9991abe\nauthor Ann <\
    ann@x> 0 +0000\ncommitter Ann <ann@x> 0 +0000\n\none\n\n";

/// Its changeset.
pub const GITLINK_CHANGESET: &[u8] =
    b"HG10UN\0\0\0\xdb\xb2\xdf|\xa6\x1f\x9a\xdd\xa2\x05\x0c\x06\xba-g{6\xe6Q\xb3\xd2\0\0\0\
    \0\0\0\0\0\0\0\0\0\0\0\0\0\0\0\0\0\0\0\0\0\0\0\0\0\0\0\0\0\0\0\0\0\0\0\0\0\xb2\xdf|\xa6\
    \x1f\x9a\xdd\xa2\x05\x0c\x06\xba-g{6\xe6Q\xb3\xd2\0\0\0\0\0\0\0\0\0\0\0{000000000000000\
    0000000000000000000000000\nAnn <ann@x>\n0 0 hg-git-tree:link:11111111111111111111111111\
    11111111111111:lib\n\none\0\0\0\0\0\0\0\0\0\0\0\0";

/// The objects of a commit of the file `a`, of one over it that adds a gitlink, and of one over that with the same tree.
pub const KEPT_GITLINK_COMMITS: &[u8] =
    b"ce013625030ba8dba906f756967f9e9ca394464a blob 6\nhello\n\n0976950c1fdbcb52435a4339130\
    17bf044b3a58f tree 29\n100644 a\0\xce\x016%\x03\x0b\xa8\xdb\xa9\x06\xf7V\x96\x7f\x9e\
    \x9c\xa3\x94FJ\nfb8491d27293299d600326567e91d35289f99b8d commit 108\ntree 0976950c1fdbc\
    b52435a433913017bf044b3a58f\nauthor Ann <ann@x> 0 +0000\ncommitter Ann <ann@x> 0 +0000\
    \n\none\n\ne3d2b7a8ff07a2f7b6a38597774aba8ad1ab66cd tree 60\n100644 a\0\xce\x016%\x03\
    \x0b\xa8\xdb\xa9\x06\xf7V\x96\x7f\x9e\x9c\xa3\x94FJ160000 lib\0\x11\x11\x11\x11\x11\x11\
    \x11\x11\x11\x11\x11\x11\x11\x11\x11\x11\x11\x11\x11\x11\n9ee01e1ca74e9e48f491edecdfdf2\
    4ee6b810a72 commit 156\ntree e3d2b7a8ff07a2f7b6a38597774aba8ad1ab66cd\nparent fb8491d27\
    293299d600326567e91d35289f99b8d\nauthor Ann <ann@x> 1 +0000\ncommitter Ann <ann@x> 1 +0\
    000\n\ntwo\n\n62aa9845d716edca0531ba80ceba05f6ce1d2497 commit 158\ntree e3d2b7a8ff07a2f\
    7b6a38597774aba8ad1ab66cd\nparent 9ee01e1ca74e9e48f491edecdfdf24ee6b810a72\nauthor Ann \
    <ann@x> 1 +0000\ncommitter Ann <ann@x> 1 +0000\n\nthree\n\n";

/// Their changesets, of which the second alone says what the gitlink is.
pub const KEPT_GITLINK_CHANGESETS: &[u8] =
    b"HG10UN\0\0\0\x9f\xa4\xeaK\x98z&~\x07\xd9\xe0\xd3v&\xd8\xca\x85\x09\x81Kv\0\0\0\0\0\0\
    \0\0\0\0\0\0\0\0\0\0\0\0\0\0\0\0\0\0\0\0\0\0\0\0\0\0\0\0\0\0\0\0\0\0\xa4\xeaK\x98z&~\
    \x07\xd9\xe0\xd3v&\xd8\xca\x85\x09\x81Kv\0\0\0\0\0\0\0\0\0\0\0?d51f7835c8978f5a11f9a33e\
    09d3852ff4979e7c\nAnn <ann@x>\n0 0\na\n\none\0\0\0\xdb\xe5\x03pU\x9f-\x99wP\x8b\xc2\x12\
    \xf2\xf6\x0e\xed\x93?d}\xa4\xeaK\x98z&~\x07\xd9\xe0\xd3v&\xd8\xca\x85\x09\x81Kv\0\0\0\0\
    \0\0\0\0\0\0\0\0\0\0\0\0\0\0\0\0\xe5\x03pU\x9f-\x99wP\x8b\xc2\x12\xf2\xf6\x0e\xed\x93?d\
    }\0\0\0\0\0\0\0?\0\0\0{d51f7835c8978f5a11f9a33e09d3852ff4979e7c\nAnn <ann@x>\n1 0 hg-gi\
    t-tree:link:1111111111111111111111111111111111111111:lib\n\ntwo\0\0\0\x9f\x9bxj\xad\xf7\
    L\xbf\x07g\x054\x88\x9a\xc9\x9f0Y\x18\xb86\xe5\x03pU\x9f-\x99wP\x8b\xc2\x12\xf2\xf6\x0e\
    \xed\x93?d}\0\0\0\0\0\0\0\0\0\0\0\0\0\0\0\0\0\0\0\0\x9bxj\xad\xf7L\xbf\x07g\x054\x88\
    \x9a\xc9\x9f0Y\x18\xb86\0\0\0\0\0\0\0{\0\0\0?d51f7835c8978f5a11f9a33e09d3852ff4979e7c\n\
    Ann <ann@x>\n1 0\n\nthree\0\0\0\0\0\0\0\x8b\xd5\x1fx5\xc8\x97\x8fZ\x11\xf9\xa3>\x09\xd3\
    \x85/\xf4\x97\x9e|\0\0\0\0\0\0\0\0\0\0\0\0\0\0\0\0\0\0\0\0\0\0\0\0\0\0\0\0\0\0\0\0\0\0\
    \0\0\0\0\0\0\xa4\xeaK\x98z&~\x07\xd9\xe0\xd3v&\xd8\xca\x85\x09\x81Kv\0\0\0\0\0\0\0\0\0\
    \0\0+a\02c186c8c5bc0df5af5b951afe407d803f9e6b8c9\n\0\0\0\0\0\0\0\x05a\0\0\0f,\x18l\x8c[\
    \xc0\xdfZ\xf5\xb9Q\xaf\xe4\x07\xd8\x03\xf9\xe6\xb8\xc9\0\0\0\0\0\0\0\0\0\0\0\0\0\0\0\0\
    \0\0\0\0\0\0\0\0\0\0\0\0\0\0\0\0\0\0\0\0\0\0\0\0\xa4\xeaK\x98z&~\x07\xd9\xe0\xd3v&\xd8\
    \xca\x85\x09\x81Kv\0\0\0\0\0\0\0\0\0\0\0\x06hello\n\0\0\0\0\0\0\0\0";

/// `ONE_CHANGESET`, and one over it that renames its file `a` to `b`.
pub const RENAME_CHANGESETS: &[u8] =
    b"HG10UN\0\0\0\x9f\xa4\xeaK\x98z&~\x07\xd9\xe0\xd3v&\xd8\xca\x85\x09\x81Kv\0\0\0\0\0\0\
    \0\0\0\0\0\0\0\0\0\0\0\0\0\0\0\0\0\0\0\0\0\0\0\0\0\0\0\0\0\0\0\0\0\0\xa4\xeaK\x98z&~\
    \x07\xd9\xe0\xd3v&\xd8\xca\x85\x09\x81Kv\0\0\0\0\0\0\0\0\0\0\0?d51f7835c8978f5a11f9a33e\
    09d3852ff4979e7c\nAnn <ann@x>\n0 0\na\n\none\0\0\0\xa1\x84Gb\x15r\xcdP\x13\x9a/~\0\xaa\
    \x90rz\x92bs5\xa4\xeaK\x98z&~\x07\xd9\xe0\xd3v&\xd8\xca\x85\x09\x81Kv\0\0\0\0\0\0\0\0\0\
    \0\0\0\0\0\0\0\0\0\0\0\x84Gb\x15r\xcdP\x13\x9a/~\0\xaa\x90rz\x92bs5\0\0\0\0\0\0\0?\0\0\
    \0A7bf5c8fb61c45321123e90bfc978acfdebed945c\nAnn <ann@x>\n1 0\na\nb\n\ntwo\0\0\0\0\0\0\
    \0\x8b\xd5\x1fx5\xc8\x97\x8fZ\x11\xf9\xa3>\x09\xd3\x85/\xf4\x97\x9e|\0\0\0\0\0\0\0\0\0\
    \0\0\0\0\0\0\0\0\0\0\0\0\0\0\0\0\0\0\0\0\0\0\0\0\0\0\0\0\0\0\0\xa4\xeaK\x98z&~\x07\xd9\
    \xe0\xd3v&\xd8\xca\x85\x09\x81Kv\0\0\0\0\0\0\0\0\0\0\0+a\02c186c8c5bc0df5af5b951afe407d\
    803f9e6b8c9\n\0\0\0\x8b{\xf5\xc8\xfba\xc4S!\x12>\x90\xbf\xc9x\xac\xfd\xeb\xed\x94\\\xd5\
    \x1fx5\xc8\x97\x8fZ\x11\xf9\xa3>\x09\xd3\x85/\xf4\x97\x9e|\0\0\0\0\0\0\0\0\0\0\0\0\0\0\
    \0\0\0\0\0\0\x84Gb\x15r\xcdP\x13\x9a/~\0\xaa\x90rz\x92bs5\0\0\0\0\0\0\0+\0\0\0+b\09f9ea\
    3b70032081a6a8f4ff8d859fc203ba0662a\n\0\0\0\0\0\0\0\x05a\0\0\0f,\x18l\x8c[\xc0\xdfZ\xf5\
    \xb9Q\xaf\xe4\x07\xd8\x03\xf9\xe6\xb8\xc9\0\0\0\0\0\0\0\0\0\0\0\0\0\0\0\0\0\0\0\0\0\0\0\
    \0\0\0\0\0\0\0\0\0\0\0\0\0\0\0\0\0\xa4\xeaK\x98z&~\x07\xd9\xe0\xd3v&\xd8\xca\x85\x09\
    \x81Kv\0\0\0\0\0\0\0\0\0\0\0\x06hello\n\0\0\0\0\0\0\0\x05b\0\0\0\xa4\x9f\x9e\xa3\xb7\02\
    \x08\x1aj\x8fO\xf8\xd8Y\xfc ;\xa0f*\0\0\0\0\0\0\0\0\0\0\0\0\0\0\0\0\0\0\0\0\0\0\0\0\0\0\
    \0\0\0\0\0\0\0\0\0\0\0\0\0\0\x84Gb\x15r\xcdP\x13\x9a/~\0\xaa\x90rz\x92bs5\0\0\0\0\0\0\0\
    \0\0\0\0D\x01\ncopy: a\ncopyrev: 2c186c8c5bc0df5af5b951afe407d803f9e6b8c9\n\x01\nhello\
    \n\0\0\0\0\0\0\0\0";

/// The objects of their commits.
pub const RENAME_COMMITS: &[u8] =
    b"ce013625030ba8dba906f756967f9e9ca394464a blob 6\nhello\n\n0976950c1fdbcb52435a4339130\
    17bf044b3a58f tree 29\n100644 a\0\xce\x016%\x03\x0b\xa8\xdb\xa9\x06\xf7V\x96\x7f\x9e\
    \x9c\xa3\x94FJ\nfb8491d27293299d600326567e91d35289f99b8d commit 108\ntree 0976950c1fdbc\
    b52435a433913017bf044b3a58f\nauthor Ann <ann@x> 0 +0000\ncommitter Ann <ann@x> 0 +0000\
    \n\none\n\nf09792be40f18f537c28b624b7bc7771f25082e1 tree 29\n100644 b\0\xce\x016%\x03\
    \x0b\xa8\xdb\xa9\x06\xf7V\x96\x7f\x9e\x9c\xa3\x94FJ\n45076e4de068b082cee8b9855933c85d22\
    b605a6 commit 170\ntree f09792be40f18f537c28b624b7bc7771f25082e1\nparent fb8491d2729329\
    9d600326567e91d35289f99b8d\nauthor Ann <ann@x> 1 +0000\ncommitter Ann <ann@x> 1 +0000\n\
    HG:rename b a\n\ntwo\n\n";

/// Two changesets without parents, of which the first has a file revision over that of the second.
pub const FILE_BEFORE_ITS_PARENT: &[u8] =
    b"HG10UN\0\0\0\xa2\xd9`>kS\xc0\xd0\xc2\xe9_*\xd5\x82\xb1\xf9\xb4(\xa0\x905\0\0\0\0\0\0\
    \0\0\0\0\0\0\0\0\0\0\0\0\0\0\0\0\0\0\0\0\0\0\0\0\0\0\0\0\0\0\0\0\0\0\xd9`>kS\xc0\xd0\
    \xc2\xe9_*\xd5\x82\xb1\xf9\xb4(\xa0\x905\0\0\0\0\0\0\0\0\0\0\0B2ab093210a68a36634f3305d\
    e759c86ecd490cea\nAnn <ann@x>\n0 0\na\n\nsooner\0\0\0\xa1V>[\x9a!,\xd0`W\x82\xc6e\xbb\
    \x91\xc3\x953\xe0!\x0c\0\0\0\0\0\0\0\0\0\0\0\0\0\0\0\0\0\0\0\0\0\0\0\0\0\0\0\0\0\0\0\0\
    \0\0\0\0\0\0\0\0V>[\x9a!,\xd0`W\x82\xc6e\xbb\x91\xc3\x953\xe0!\x0c\0\0\0\0\0\0\0B\0\0\0\
    Ad51f7835c8978f5a11f9a33e09d3852ff4979e7c\nAnn <ann@x>\n1 0\na\n\nlater\0\0\0\0\0\0\0\
    \x8b\xd5\x1fx5\xc8\x97\x8fZ\x11\xf9\xa3>\x09\xd3\x85/\xf4\x97\x9e|\0\0\0\0\0\0\0\0\0\0\
    \0\0\0\0\0\0\0\0\0\0\0\0\0\0\0\0\0\0\0\0\0\0\0\0\0\0\0\0\0\0V>[\x9a!,\xd0`W\x82\xc6e\
    \xbb\x91\xc3\x953\xe0!\x0c\0\0\0\0\0\0\0\0\0\0\0+a\02c186c8c5bc0df5af5b951afe407d803f9e\
    6b8c9\n\0\0\0\x8b*\xb0\x93!\nh\xa3f4\xf30]\xe7Y\xc8n\xcdI\x0c\xea\0\0\0\0\0\0\0\0\0\0\0\
    \0\0\0\0\0\0\0\0\0\0\0\0\0\0\0\0\0\0\0\0\0\0\0\0\0\0\0\0\0\xd9`>kS\xc0\xd0\xc2\xe9_*\
    \xd5\x82\xb1\xf9\xb4(\xa0\x905\0\0\0\0\0\0\0+\0\0\0+a\0c093b423870d8b2114889160cb1dee55\
    fd1cca9b\n\0\0\0\0\0\0\0\x05a\0\0\0f,\x18l\x8c[\xc0\xdfZ\xf5\xb9Q\xaf\xe4\x07\xd8\x03\
    \xf9\xe6\xb8\xc9\0\0\0\0\0\0\0\0\0\0\0\0\0\0\0\0\0\0\0\0\0\0\0\0\0\0\0\0\0\0\0\0\0\0\0\
    \0\0\0\0\0V>[\x9a!,\xd0`W\x82\xc6e\xbb\x91\xc3\x953\xe0!\x0c\0\0\0\0\0\0\0\0\0\0\0\x06h\
    ello\n\0\0\0g\xc0\x93\xb4#\x87\x0d\x8b!\x14\x88\x91`\xcb\x1d\xeeU\xfd\x1c\xca\x9b,\x18l\
    \x8c[\xc0\xdfZ\xf5\xb9Q\xaf\xe4\x07\xd8\x03\xf9\xe6\xb8\xc9\0\0\0\0\0\0\0\0\0\0\0\0\0\0\
    \0\0\0\0\0\0\xd9`>kS\xc0\xd0\xc2\xe9_*\xd5\x82\xb1\xf9\xb4(\xa0\x905\0\0\0\0\0\0\0\x06\
    \0\0\0\x07hello2\n\0\0\0\0\0\0\0\0";

/// Two changesets without parents, of which the first has a manifest over that of the second.
pub const MANIFEST_BEFORE_ITS_PARENT: &[u8] =
    b"HG10UN\0\0\0\xa2\n\xe6P\xc5\xe9\x81^\xc5\x86\xe7\xbb4I\xf0sE\xa5\xf9\xad\xc7\0\0\0\0\
    \0\0\0\0\0\0\0\0\0\0\0\0\0\0\0\0\0\0\0\0\0\0\0\0\0\0\0\0\0\0\0\0\0\0\0\0\n\xe6P\xc5\xe9\
    \x81^\xc5\x86\xe7\xbb4I\xf0sE\xa5\xf9\xad\xc7\0\0\0\0\0\0\0\0\0\0\0B3ce85b3ddf764e296ef\
    6e16c6be0a1e8fd8f89f8\nAnn <ann@x>\n0 0\na\n\nsooner\0\0\0\xa1V>[\x9a!,\xd0`W\x82\xc6e\
    \xbb\x91\xc3\x953\xe0!\x0c\0\0\0\0\0\0\0\0\0\0\0\0\0\0\0\0\0\0\0\0\0\0\0\0\0\0\0\0\0\0\
    \0\0\0\0\0\0\0\0\0\0V>[\x9a!,\xd0`W\x82\xc6e\xbb\x91\xc3\x953\xe0!\x0c\0\0\0\0\0\0\0B\0\
    \0\0Ad51f7835c8978f5a11f9a33e09d3852ff4979e7c\nAnn <ann@x>\n1 0\na\n\nlater\0\0\0\0\0\0\
    \0\x8b\xd5\x1fx5\xc8\x97\x8fZ\x11\xf9\xa3>\x09\xd3\x85/\xf4\x97\x9e|\0\0\0\0\0\0\0\0\0\
    \0\0\0\0\0\0\0\0\0\0\0\0\0\0\0\0\0\0\0\0\0\0\0\0\0\0\0\0\0\0\0V>[\x9a!,\xd0`W\x82\xc6e\
    \xbb\x91\xc3\x953\xe0!\x0c\0\0\0\0\0\0\0\0\0\0\0+a\02c186c8c5bc0df5af5b951afe407d803f9e\
    6b8c9\n\0\0\0\x8b<\xe8[=\xdfvN)n\xf6\xe1lk\xe0\xa1\xe8\xfd\x8f\x89\xf8\xd5\x1fx5\xc8\
    \x97\x8fZ\x11\xf9\xa3>\x09\xd3\x85/\xf4\x97\x9e|\0\0\0\0\0\0\0\0\0\0\0\0\0\0\0\0\0\0\0\
    \0\n\xe6P\xc5\xe9\x81^\xc5\x86\xe7\xbb4I\xf0sE\xa5\xf9\xad\xc7\0\0\0\0\0\0\0+\0\0\0+a\0\
    e6d551baa50e42a49847b31b642e087945141db5\n\0\0\0\0\0\0\0\x05a\0\0\0f,\x18l\x8c[\xc0\xdf\
    Z\xf5\xb9Q\xaf\xe4\x07\xd8\x03\xf9\xe6\xb8\xc9\0\0\0\0\0\0\0\0\0\0\0\0\0\0\0\0\0\0\0\0\
    \0\0\0\0\0\0\0\0\0\0\0\0\0\0\0\0\0\0\0\0V>[\x9a!,\xd0`W\x82\xc6e\xbb\x91\xc3\x953\xe0!\
    \x0c\0\0\0\0\0\0\0\0\0\0\0\x06hello\n\0\0\0g\xe6\xd5Q\xba\xa5\x0eB\xa4\x98G\xb3\x1bd.\
    \x08yE\x14\x1d\xb5\0\0\0\0\0\0\0\0\0\0\0\0\0\0\0\0\0\0\0\0\0\0\0\0\0\0\0\0\0\0\0\0\0\0\
    \0\0\0\0\0\0\n\xe6P\xc5\xe9\x81^\xc5\x86\xe7\xbb4I\xf0sE\xa5\xf9\xad\xc7\0\0\0\0\0\0\0\
    \x06\0\0\0\x07hello2\n\0\0\0\0\0\0\0\0";

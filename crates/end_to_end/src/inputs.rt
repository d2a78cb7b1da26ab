// Inputs that several commands are run over.

// No entries: the magic and three empty chunks.
pub const LEAST: &[u8] = b"HG10UN\0\0\0\0\0\0\0\0\0\0\0\0";

// One changeset without a delta, whose node and link node are twenty bytes 0x11.
pub const ONE_ENTRY: &[u8] = b"HG10UN\0\0\0T\
    \x11\x11\x11\x11\x11\x11\x11\x11\x11\x11\x11\x11\x11\x11\x11\x11\x11\x11\x11\x11\
    \0\0\0\0\0\0\0\0\0\0\0\0\0\0\0\0\0\0\0\0\0\0\0\0\0\0\0\0\0\0\0\0\0\0\0\0\0\0\0\0\
    \x11\x11\x11\x11\x11\x11\x11\x11\x11\x11\x11\x11\x11\x11\x11\x11\x11\x11\x11\x11\
    \0\0\0\0\0\0\0\0\0\0\0\0";

// The same revision, as one of a file whose path has bytes that are escaped.
pub const ODD_PATH: &[u8] = b"HG10UN\0\0\0\0\0\0\0\0\0\0\0\x09a b%\\\0\0\0T\
    \x11\x11\x11\x11\x11\x11\x11\x11\x11\x11\x11\x11\x11\x11\x11\x11\x11\x11\x11\x11\
    \0\0\0\0\0\0\0\0\0\0\0\0\0\0\0\0\0\0\0\0\0\0\0\0\0\0\0\0\0\0\0\0\0\0\0\0\0\0\0\0\
    \x11\x11\x11\x11\x11\x11\x11\x11\x11\x11\x11\x11\x11\x11\x11\x11\x11\x11\x11\x11\
    \0\0\0\0\0\0\0\0";

// One changeset that adds the file `a` with one line.
pub const ONE_CHANGESET: &[u8] =
    b"HG10UN\0\0\0\x9f\xa4\xeaK\x98z&~\x07\xd9\xe0\xd3v&\xd8\xca\x85\x09\x81Kv\0\0\0\0\0\0\0\0\0\0\0\0\0\0\
    \0\0\0\0\0\0\0\0\0\0\0\0\0\0\0\0\0\0\0\0\0\0\0\0\0\0\xa4\xeaK\x98z&~\x07\xd9\xe0\xd3v&\xd8\xca\x85\
    \x09\x81Kv\0\0\0\0\0\0\0\0\0\0\0?d51f7835c8978f5a11f9a33e09d3852ff4979e7c\nAnn <ann@x>\n0 0\na\n\non\
    e\0\0\0\0\0\0\0\x8b\xd5\x1fx5\xc8\x97\x8fZ\x11\xf9\xa3>\x09\xd3\x85/\xf4\x97\x9e|\0\0\0\0\0\0\0\0\0\
    \0\0\0\0\0\0\0\0\0\0\0\0\0\0\0\0\0\0\0\0\0\0\0\0\0\0\0\0\0\0\0\xa4\xeaK\x98z&~\x07\xd9\xe0\xd3v&\xd8\
    \xca\x85\x09\x81Kv\0\0\0\0\0\0\0\0\0\0\0+a\02c186c8c5bc0df5af5b951afe407d803f9e6b8c9\n\0\0\0\0\0\0\0\
    \x05a\0\0\0f,\x18l\x8c[\xc0\xdfZ\xf5\xb9Q\xaf\xe4\x07\xd8\x03\xf9\xe6\xb8\xc9\0\0\0\0\0\0\0\0\0\0\0\
    \0\0\0\0\0\0\0\0\0\0\0\0\0\0\0\0\0\0\0\0\0\0\0\0\0\0\0\0\0\xa4\xeaK\x98z&~\x07\xd9\xe0\xd3v&\xd8\xca\
    \x85\x09\x81Kv\0\0\0\0\0\0\0\0\0\0\0\x06hello\n\0\0\0\0\0\0\0\0";

// The same with an empty file, whose delta has no hunk.
pub const EMPTY_FILE: &[u8] =
    b"HG10UN\0\0\0\x9f\xd2\x14\xcd\xe1\xc3\xe6\x0c\xc0l\xa5\x9b\n\xfeF7)\xb4\xef\xbe,\0\0\0\0\0\0\0\0\
    \0\0\0\0\0\0\0\0\0\0\0\0\0\0\0\0\0\0\0\0\0\0\0\0\0\0\0\0\0\0\0\0\xd2\x14\xcd\xe1\xc3\xe6\x0c\xc0\
    l\xa5\x9b\n\xfeF7)\xb4\xef\xbe,\0\0\0\0\0\0\0\0\0\0\0?8515d4bfda768e04af4c13a69a72e28c7effbea7\n\
    Ann <ann@x>\n0 0\na\n\none\0\0\0\0\0\0\0\x8b\x85\x15\xd4\xbf\xdav\x8e\x04\xafL\x13\xa6\x9ar\xe2\
    \x8c~\xff\xbe\xa7\0\0\0\0\0\0\0\0\0\0\0\0\0\0\0\0\0\0\0\0\0\0\0\0\0\0\0\0\0\0\0\0\0\0\0\0\0\0\0\
    \0\xd2\x14\xcd\xe1\xc3\xe6\x0c\xc0l\xa5\x9b\n\xfeF7)\xb4\xef\xbe,\0\0\0\0\0\0\0\0\0\0\0+a\0b80de\
    5d138758541c5f05265ad144ab9fa86d1db\n\0\0\0\0\0\0\0\x05a\0\0\0T\xb8\x0d\xe5\xd18u\x85A\xc5\xf0Re\
    \xad\x14J\xb9\xfa\x86\xd1\xdb\0\0\0\0\0\0\0\0\0\0\0\0\0\0\0\0\0\0\0\0\0\0\0\0\0\0\0\0\0\0\0\0\0\
    \0\0\0\0\0\0\0\xd2\x14\xcd\xe1\xc3\xe6\x0c\xc0l\xa5\x9b\n\xfeF7)\xb4\xef\xbe,\0\0\0\0\0\0\0\0";

// The same with a file whose body begins with the mark of metadata.
pub const MARKED_BODY: &[u8] =
    b"HG10UN\0\0\0\x9fXKM \xa6}W \xfa\xd7x\xbb;\xfbW\x9c\xeel\xa3\xe1\0\0\0\0\0\0\0\0\0\0\0\0\0\0\0\0\
    \0\0\0\0\0\0\0\0\0\0\0\0\0\0\0\0\0\0\0\0\0\0\0\0XKM \xa6}W \xfa\xd7x\xbb;\xfbW\x9c\xeel\xa3\xe1\
    \0\0\0\0\0\0\0\0\0\0\0?4cdd39232bc4e5805bae80b41a41809d8b0d7a8a\nAnn <ann@x>\n0 0\na\n\none\0\0\
    \0\0\0\0\0\x8bL\xdd9#+\xc4\xe5\x80[\xae\x80\xb4\x1aA\x80\x9d\x8b\x0dz\x8a\0\0\0\0\0\0\0\0\0\0\0\
    \0\0\0\0\0\0\0\0\0\0\0\0\0\0\0\0\0\0\0\0\0\0\0\0\0\0\0\0\0XKM \xa6}W \xfa\xd7x\xbb;\xfbW\x9c\xee\
    l\xa3\xe1\0\0\0\0\0\0\0\0\0\0\0+a\0da32f6d486014cb78632dd0dd2abab832651594b\n\0\0\0\0\0\0\0\x05a\
    \0\0\0g\xda2\xf6\xd4\x86\x01L\xb7\x862\xdd\x0d\xd2\xab\xab\x83&QYK\0\0\0\0\0\0\0\0\0\0\0\0\0\0\0\
    \0\0\0\0\0\0\0\0\0\0\0\0\0\0\0\0\0\0\0\0\0\0\0\0\0XKM \xa6}W \xfa\xd7x\xbb;\xfbW\x9c\xeel\xa3\
    \xe1\0\0\0\0\0\0\0\0\0\0\0\x07\x01\n\x01\n\x01\nx\0\0\0\0\0\0\0\0";

// A changeset over that of `ONE_CHANGESET`, which isn't there.
pub const ORPHANED: &[u8] =
    b"HG10UN\0\0\0\x9f\x9bq\xae\x146\x05\xc7\xf3\xfe\xcfS\x02f \xb6\x93\xf0S\xe1\xbd\xa4\xeaK\x98z&~\
    \x07\xd9\xe0\xd3v&\xd8\xca\x85\x09\x81Kv\0\0\0\0\0\0\0\0\0\0\0\0\0\0\0\0\0\0\0\0\x9bq\xae\x146\
    \x05\xc7\xf3\xfe\xcfS\x02f \xb6\x93\xf0S\xe1\xbd\0\0\0\0\0\0\0?\0\0\0?79bcbea83e2380c3cece79e6c6\
    652b4e325c59dd\nAnn <ann@x>\n1 0\na\n\ntwo\0\0\0\0\0\0\0\x8by\xbc\xbe\xa8>#\x80\xc3\xce\xcey\xe6\
    \xc6e+N2\\Y\xdd\xd5\x1fx5\xc8\x97\x8fZ\x11\xf9\xa3>\x09\xd3\x85/\xf4\x97\x9e|\0\0\0\0\0\0\0\0\0\
    \0\0\0\0\0\0\0\0\0\0\0\x9bq\xae\x146\x05\xc7\xf3\xfe\xcfS\x02f \xb6\x93\xf0S\xe1\xbd\0\0\0\0\0\0\
    \0+\0\0\0+a\0c093b423870d8b2114889160cb1dee55fd1cca9b\n\0\0\0\0\0\0\0\x05a\0\0\0g\xc0\x93\xb4#\
    \x87\x0d\x8b!\x14\x88\x91`\xcb\x1d\xeeU\xfd\x1c\xca\x9b,\x18l\x8c[\xc0\xdfZ\xf5\xb9Q\xaf\xe4\x07\
    \xd8\x03\xf9\xe6\xb8\xc9\0\0\0\0\0\0\0\0\0\0\0\0\0\0\0\0\0\0\0\0\x9bq\xae\x146\x05\xc7\xf3\xfe\
    \xcfS\x02f \xb6\x93\xf0S\xe1\xbd\0\0\0\0\0\0\0\x06\0\0\0\x07hello2\n\0\0\0\0\0\0\0\0";

// A merge, and the same node and text again with the two parents swapped.
pub const SWAPPED_PARENTS: &[u8] =
    b"HG10UN\0\0\0\x9d\xa0\xd8\xf1/\xe1f5$X\xce\x83:\xdc9\x0cQ\xc9/S\x94\0\0\0\0\0\0\0\0\0\0\0\0\0\0\0\
    \0\0\0\0\0\0\0\0\0\0\0\0\0\0\0\0\0\0\0\0\0\0\0\0\0\xa0\xd8\xf1/\xe1f5$X\xce\x83:\xdc9\x0cQ\xc9/S\
    \x94\0\0\0\0\0\0\0\0\0\0\0=447d057c914397cc3eb5fed275efb534ca7714be\nAnn <ann@x>\n0 0\na\n\nx\0\
    \0\0\x9dxG\x7f\xa7D\x13\xbd\xfcC\xf8\x1e\xc3(u\xc9\xcb|\x95\xf4[\0\0\0\0\0\0\0\0\0\0\0\0\0\0\0\0\
    \0\0\0\0\0\0\0\0\0\0\0\0\0\0\0\0\0\0\0\0\0\0\0\0xG\x7f\xa7D\x13\xbd\xfcC\xf8\x1e\xc3(u\xc9\xcb|\
    \x95\xf4[\0\0\0\0\0\0\0=\0\0\0=c65a90e6d9faad437b0228e94009156e8c8935be\nAnn <ann@x>\n0 0\na\n\n\
    y\0\0\0\x9b\xaax\x9c\xf2\x9d\xd7Gws\xd8A\x9c\xab\x97\xc4Ee\xde\xb44\xa0\xd8\xf1/\xe1f5$X\xce\x83\
    :\xdc9\x0cQ\xc9/S\x94xG\x7f\xa7D\x13\xbd\xfcC\xf8\x1e\xc3(u\xc9\xcb|\x95\xf4[\xaax\x9c\xf2\x9d\
    \xd7Gws\xd8A\x9c\xab\x97\xc4Ee\xde\xb44\0\0\0\0\0\0\0=\0\0\0;447d057c914397cc3eb5fed275efb534ca7\
    714be\nAnn <ann@x>\n0 0\n\nm\0\0\0\x9b\xaax\x9c\xf2\x9d\xd7Gws\xd8A\x9c\xab\x97\xc4Ee\xde\xb44xG\
    \x7f\xa7D\x13\xbd\xfcC\xf8\x1e\xc3(u\xc9\xcb|\x95\xf4[\xa0\xd8\xf1/\xe1f5$X\xce\x83:\xdc9\x0cQ\
    \xc9/S\x94\xaax\x9c\xf2\x9d\xd7Gws\xd8A\x9c\xab\x97\xc4Ee\xde\xb44\0\0\0\0\0\0\0;\0\0\0;447d057c\
    914397cc3eb5fed275efb534ca7714be\nAnn <ann@x>\n0 0\n\nm\0\0\0\0\0\0\0\x8bD}\x05|\x91C\x97\xcc>\
    \xb5\xfe\xd2u\xef\xb54\xcaw\x14\xbe\0\0\0\0\0\0\0\0\0\0\0\0\0\0\0\0\0\0\0\0\0\0\0\0\0\0\0\0\0\0\
    \0\0\0\0\0\0\0\0\0\0\xa0\xd8\xf1/\xe1f5$X\xce\x83:\xdc9\x0cQ\xc9/S\x94\0\0\0\0\0\0\0\0\0\0\0+a\0\
    1406e74118627694268417491f018a4a883152f0\n\0\0\0\x8b\xc6Z\x90\xe6\xd9\xfa\xadC{\x02(\xe9@\x09\
    \x15n\x8c\x895\xbe\0\0\0\0\0\0\0\0\0\0\0\0\0\0\0\0\0\0\0\0\0\0\0\0\0\0\0\0\0\0\0\0\0\0\0\0\0\0\0\
    \0xG\x7f\xa7D\x13\xbd\xfcC\xf8\x1e\xc3(u\xc9\xcb|\x95\xf4[\0\0\0\0\0\0\0+\0\0\0+a\0076f5e2225b3f\
    f0400b98c92aa6cdf403ee24cca\n\0\0\0\0\0\0\0\x05a\0\0\0b\x14\x06\xe7A\x18bv\x94&\x84\x17I\x1f\x01\
    \x8aJ\x881R\xf0\0\0\0\0\0\0\0\0\0\0\0\0\0\0\0\0\0\0\0\0\0\0\0\0\0\0\0\0\0\0\0\0\0\0\0\0\0\0\0\0\
    \xa0\xd8\xf1/\xe1f5$X\xce\x83:\xdc9\x0cQ\xc9/S\x94\0\0\0\0\0\0\0\0\0\0\0\x02x\n\0\0\0b\x07o^\"%\
    \xb3\xff\x04\0\xb9\x8c\x92\xaal\xdf@>\xe2L\xca\0\0\0\0\0\0\0\0\0\0\0\0\0\0\0\0\0\0\0\0\0\0\0\0\0\
    \0\0\0\0\0\0\0\0\0\0\0\0\0\0\0xG\x7f\xa7D\x13\xbd\xfcC\xf8\x1e\xc3(u\xc9\xcb|\x95\xf4[\0\0\0\0\0\
    \0\0\x02\0\0\0\x02y\n\0\0\0\0\0\0\0\0";

// A second file revision, whose delta has a hunk that begins before the end of the one before it.
pub const CHANGED_HUNKS: &[u8] =
    b"HG10UN\0\0\0\x9f\xca6Om\xde\x03\x88\xaaC\xb5!eo\xf8\xdd6\xfa\xea\xd8X\0\0\0\0\0\0\0\0\0\0\0\0\0\
    \0\0\0\0\0\0\0\0\0\0\0\0\0\0\0\0\0\0\0\0\0\0\0\0\0\0\0\xca6Om\xde\x03\x88\xaaC\xb5!eo\xf8\xdd6\
    \xfa\xea\xd8X\0\0\0\0\0\0\0\0\0\0\0?04ebb9a5b47287a06b0bdfe6dd419f6ac13d043a\nAnn <ann@x>\n0 0\n\
    a\n\none\0\0\0\0\0\0\0\x8b\x04\xeb\xb9\xa5\xb4r\x87\xa0k\x0b\xdf\xe6\xddA\x9fj\xc1=\x04:\0\0\0\0\
    \0\0\0\0\0\0\0\0\0\0\0\0\0\0\0\0\0\0\0\0\0\0\0\0\0\0\0\0\0\0\0\0\0\0\0\0\xca6Om\xde\x03\x88\xaaC\
    \xb5!eo\xf8\xdd6\xfa\xea\xd8X\0\0\0\0\0\0\0\0\0\0\0+a\0dfdc6b554af88478b245af87194f4669f4758c96\
    \n\0\0\0\0\0\0\0\x05a\0\0\0f\xdf\xdckUJ\xf8\x84x\xb2E\xaf\x87\x19OFi\xf4u\x8c\x96\0\0\0\0\0\0\0\
    \0\0\0\0\0\0\0\0\0\0\0\0\0\0\0\0\0\0\0\0\0\0\0\0\0\0\0\0\0\0\0\0\0\xca6Om\xde\x03\x88\xaaC\xb5!e\
    o\xf8\xdd6\xfa\xea\xd8X\0\0\0\0\0\0\0\0\0\0\0\x06abcdef\0\0\0nR3\xc8\x14\xc9\xa5l\xcc\x94\x1e_\0\
    \xf4P\xe6\xb9:\x8e\xb4\x84\xdf\xdckUJ\xf8\x84x\xb2E\xaf\x87\x19OFi\xf4u\x8c\x96\0\0\0\0\0\0\0\0\
    \0\0\0\0\0\0\0\0\0\0\0\0\xca6Om\xde\x03\x88\xaaC\xb5!eo\xf8\xdd6\xfa\xea\xd8X\0\0\0\x01\0\0\0\
    \x03\0\0\0\x02XY\0\0\0\x02\0\0\0\x04\0\0\0\0\0\0\0\0\0\0\0\0";

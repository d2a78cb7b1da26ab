// Users, dates and messages of one side as those of the other.
use name_rule::{
    desc_of_message, line_of_user, message_of_desc, tz_of_zone, user_of_line, zone_of_tz,
};
use std::alloc::Global;
use std::test::Fail;

type LineRow = (&'static [u8], i64, i64, &'static [u8]);

/// Users, times, zones in seconds west of UTC, and the lines of an author.
const LINES: &[LineRow] = &[
    (b"Ann", 0, 0, b"Ann <none@none> 0 +0000"),
    (b"Ann <ann@x>", 5, -19800, b"Ann <ann@x> 5 +0530"),
    (b"ann@x", 0, 0, b"ann@x <ann@x> 0 +0000"),
    (b"none@none", 0, 0, b"none@none <none@none> 0 +0000"),
    (b"Ann <none@none>", 0, 0, b"Ann <none@none> 0 +0000"),
    (b"A@b <none@none>", 0, 0, b"A@b <none@none> 0 +0000"),
    (b"", 0, 0, b" <none@none> 0 +0000"),
    (b"<>", 0, 0, b"unknown <none@none> 0 +0000"),
    (b"><", 0, 0, b"unknown <none@none> 0 +0000"),
    (b"<", 0, 0, b"unknown <none@none> 0 +0000"),
    (b"<ann@x>", 0, 0, b"ann@x <ann@x> 0 +0000"),
    (b" <ann@x>", 0, 0, b" ann@x < ann@x> 0 +0000"),
    (b"  <a>", 0, 0, b"  <a> 0 +0000"),
    (b"Ann <>", 0, 0, b"Ann <> 0 +0000"),
    (b"Ann  <a b>", 0, 0, b"Ann  <a b> 0 +0000"),
    (b" Ann <a>", 0, 0, b" Ann <a> 0 +0000"),
    (b"a<b>c", 0, 0, b"abc <none@none> 0 +0000"),
    (b"Ann<ann@x>", 0, 0, b"Annann@x <Annann@x> 0 +0000"),
    (b"Ann <ann@x", 0, 0, b"Ann ann@x <Ann ann@x> 0 +0000"),
    (b"Ann ann@x>", 0, 0, b"Ann ann@x <Ann ann@x> 0 +0000"),
    (b"Ann <a> ", 0, 0, b"Ann a  <none@none> 0 +0000"),
    (b"Ann <<a>>", 0, 0, b"Ann a <none@none> 0 +0000"),
    (b"Ann <a><b>", 0, 0, b"Ann ab <none@none> 0 +0000"),
    (b"A>n <a@b>", 0, 0, b"An a@b <An a@b> 0 +0000"),
    (b"\xff <\xfe>", 0, 0, b"\xff <\xfe> 0 +0000"),
    (
        b"B",
        9223372036854775807,
        0,
        b"B <none@none> 9223372036854775807 +0000",
    ),
];

/// Times and zones of the user `B`, with the end of the line.
const DATES: &[(i64, i64, &'static [u8])] = &[
    (-1, 0, b"B <none@none> 0 +0000"),
    (-9223372036854775808, 0, b"B <none@none> 0 +0000"),
    (1, 3600, b"B <none@none> 1 -0100"),
    (1, -3600, b"B <none@none> 1 +0100"),
    (1, 60, b"B <none@none> 1 -0001"),
    (1, -60, b"B <none@none> 1 +0001"),
    (1, 90, b"B <none@none> 1 +0000"),
    (1, -90, b"B <none@none> 1 +0000"),
    (1, 59, b"B <none@none> 1 +0000"),
    (1, 3599, b"B <none@none> 1 +0000"),
    (1, 43140, b"B <none@none> 1 -1159"),
    (1, 359940, b"B <none@none> 1 -9959"),
    (1, -359940, b"B <none@none> 1 +9959"),
    (1, 360000, b"B <none@none> 1 +0000"),
    (1, -360000, b"B <none@none> 1 +0000"),
    (1, -9223372036854775808, b"B <none@none> 1 +0000"),
];

fn has_line(alloc: Global, user: &[u8], time: i64, tz: i64, want: &[u8]) -> Result<bool, Fail> {
    let line = line_of_user(alloc, user, time, tz)?;
    Ok(line.as_slice() == want)
}

#[test]
fn lines_of_users(rt: HostRuntime) -> Result<(), Fail> {
    for (user, time, tz, want) in LINES {
        let has_line = has_line(rt.alloc(), user, *time, *tz, want)?;
        assert!(rt; has_line);
    }
    Ok(())
}

#[test]
fn lines_of_dates(rt: HostRuntime) -> Result<(), Fail> {
    for (time, tz, want) in DATES {
        let has_line = has_line(rt.alloc(), b"B", *time, *tz, want)?;
        assert!(rt; has_line);
    }
    Ok(())
}

type UserRow = (&'static [u8], &'static [u8], i64, i64);

/// Lines of an author that are idents, and their users, times and zones.
const USERS: &[UserRow] = &[
    (b"Ann <ann@x> 0 +0000", b"Ann <ann@x>", 0, 0),
    (b"Ann <none@none> 5 +0530", b"Ann", 5, -19800),
    (b"ann@x <ann@x> 0 -0100", b"ann@x", 0, 3600),
    (b"none@none <none@none> 1 +0000", b"none@none", 1, 0),
    (b"A@b <none@none> 0 +0000", b"A@b <none@none>", 0, 0),
    (b"A@b <a@b> 0 +0000", b"A@b <a@b>", 0, 0),
    (b"Ann <Ann> 0 +0000", b"Ann <Ann>", 0, 0),
    (b" <ann@x> 0 +0000", b"<ann@x>", 0, 0),
    (b" <none@none> 0 +0000", b"<none@none>", 0, 0),
    (b" <> 1 +0000", b"<>", 1, 0),
    (b"Ann <> 1 -0000", b"Ann <>", 1, 0),
    (b"Ann  <none@none> 0 +0000", b"Ann ", 0, 0),
    (b"  <a> 0 +0000", b"  <a>", 0, 0),
    (b"unknown <none@none> 0 +0000", b"unknown", 0, 0),
    (b"Ann <a> 0 +0060", b"Ann <a>", 0, -3600),
    (b"Ann <a> 0 +9999", b"Ann <a>", 0, -362340),
    (b"Ann <a> 0 -9999", b"Ann <a>", 0, 362340),
    (
        b"Ann <a> 4611686018427387904 +0000",
        b"Ann <a>",
        4611686018427387904,
        0,
    ),
];

/// Lines that are no idents and so are themselves the users.
const OTHER_LINES: &[&'static [u8]] = &[
    b"Ann",
    b"Ann <a>",
    b"<a> 0 +0000",
    b"Ann<a> 0 +0000",
    b"Ann <a> -5 +0000",
    b"Ann <a> 05 +0000",
    b"Ann <a> 0 0000",
    b"Ann <a> 0 +000",
    b"Ann <a> 0 +0000 ",
    b"Ann <a> 4611686018427387905 +0000",
];

fn has_user(alloc: Global, line: &[u8], user: &[u8], time: i64, tz: i64) -> Result<bool, Fail> {
    let found = user_of_line(alloc, line)?;
    Ok(found.user.as_slice() == user && found.time == time && found.tz == tz)
}

#[test]
fn users_of_lines(rt: HostRuntime) -> Result<(), Fail> {
    for (line, user, time, tz) in USERS {
        let has_user = has_user(rt.alloc(), line, user, *time, *tz)?;
        assert!(rt; has_user);
    }
    Ok(())
}

#[test]
fn lines_that_are_users(rt: HostRuntime) -> Result<(), Fail> {
    for line in OTHER_LINES {
        let is_user = has_user(rt.alloc(), line, line, 0, 0)?;
        assert!(rt; is_user);
    }
    let is_unknown = has_user(rt.alloc(), b"", b"unknown", 0, 0)?;
    assert!(rt; is_unknown);
    Ok(())
}

/// Zones, and the seconds west of UTC.
const ZONES: &[([u8; 5], Option<i64>)] = &[
    (*b"+0000", Some(0)),
    (*b"-0000", Some(0)),
    (*b"+0530", Some(-19800)),
    (*b"-0100", Some(3600)),
    (*b"-0001", Some(60)),
    (*b"+0060", Some(-3600)),
    (*b"-0060", Some(3600)),
    (*b"+9999", Some(-362340)),
    (*b"-9999", Some(362340)),
    (*b"00000", None),
    (*b" 0100", None),
    (*b"+010a", None),
    (*b"+-100", None),
    (*b"-01:0", None),
];

#[test]
fn zones(rt: HostRuntime) -> Result<(), Fail> {
    for (zone, want) in ZONES {
        assert!(rt; tz_of_zone(zone) == *want);
    }
    assert!(rt; zone_of_tz(-19800) == *b"+0530" && zone_of_tz(3600) == *b"-0100");
    Ok(())
}

/// Messages, and their descriptions.
const MESSAGES: &[(&'static [u8], &'static [u8])] = &[
    (b"", b""),
    (b"\n", b""),
    (b"one", b"one"),
    (b"one\n", b"one"),
    (b"one\n\n", b"one\n"),
    (b"\n\n", b"\n"),
    (b"one\r\n", b"one\r"),
    (b"one\ntwo", b"one\ntwo"),
];

#[test]
fn descriptions_of_messages(rt: HostRuntime) -> Result<(), Fail> {
    for (message, desc) in MESSAGES {
        assert!(rt; desc_of_message(message) == *desc);
    }
    Ok(())
}

/// Descriptions, and their messages.
const DESCRIPTIONS: &[(&'static [u8], &'static [u8])] = &[
    (b"", b"\n"),
    (b"one", b"one\n"),
    (b"one\n", b"one\n\n"),
];

fn has_message(alloc: Global, desc: &[u8], want: &[u8]) -> Result<bool, Fail> {
    let message = message_of_desc(alloc, desc)?;
    Ok(message.as_slice() == want)
}

#[test]
fn messages_of_descriptions(rt: HostRuntime) -> Result<(), Fail> {
    for (desc, message) in DESCRIPTIONS {
        let has_message = has_message(rt.alloc(), desc, message)?;
        assert!(rt; has_message);
    }
    Ok(())
}

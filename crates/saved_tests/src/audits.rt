// Saved states, audited.
ghost use Rattle.std.specs.Prelude.{◌≡◌, ◌<◌};

use crate::values::{BUNDLE, COMMIT, STREAM, id};
use bridge_io::Steps;
use shared_text::keep;
use state_audit::{Verdict, verify};
use state_text::read;
use std::alloc::{AllocError, Global};
use std::marker::Brand;
use std::sync::ledger::{Blank, Ledger};
use std::test::Fail;

/// The id of the example's commit with another message.
const OTHER: &[u8] = b"fa3eb92ad14da182a8acf90176d96d071a339fca";

/// The blob and the tree of the example's stream.
const PARTS: usize = 134;

/// Behind them, the commit with another message.
const OTHER_COMMIT: &[u8] =
    b"fa3eb92ad14da182a8acf90176d96d071a339fca commit 108\ntree 0976950c1fdbcb52435a433913017bf044b3\
    a58f\nauthor Ann <ann@x> 0 +0000\ncommitter Ann <ann@x> 0 +0000\n\nuno\n\n";

const BEGINNING: &[u8] = b"hg-git-bridge 2\nhg 427\n";

const END: &[u8] = b" a4ea4b987a267e07d9e0d37626d8ca8509814b76\ntags 0\n\nnames 0\n\n";

fn text_of(alloc: Global, parts: &[&[u8]]) -> Result<Vec<u8>, AllocError> {
    let mut text = Vec::new(alloc);
    for part in parts {
        text.extend_from_slice(part)?;
    }
    Ok(text)
}

// What the audit of the state with this text finds.
fn verdict_of<L: Ledger>(alloc: Global, parts: &[&[u8]], blank: Blank) -> Result<Verdict, Fail>
    requires name { blank.name ≡ L.name }
    requires parts { blank.parts ≡ L.parts }
    requires some { 0 < blank.parts }
{
    let text = keep(text_of(alloc, parts)?)?;
    let state = read(alloc, &text)?;
    let mut steps = Steps::<L>::new(blank);
    Ok(verify(&state, &mut steps)?)
}

#[test]
fn a_right_history_holds(rt: HostRuntime) -> Result<(), Fail> {
    let parts = [
        BEGINNING,
        BUNDLE,
        b"\ngit 295\n",
        STREAM,
        b"\nmap 1\n",
        COMMIT,
        END,
    ];
    let verdict = verdict_of::<Brand>(rt.alloc(), &parts, Blank::new(1))?;
    assert!(rt; verdict == Verdict::Holds(1));
    Ok(())
}

#[test]
fn another_commit_differs(rt: HostRuntime) -> Result<(), Fail> {
    let parts = [
        BEGINNING,
        BUNDLE,
        b"\ngit 295\n",
        &STREAM[..PARTS],
        OTHER_COMMIT,
        b"\nmap 1\n",
        OTHER,
        END,
    ];
    let verdict = verdict_of::<Brand>(rt.alloc(), &parts, Blank::new(1))?;
    let found = Verdict::Differs {
        kept: id(OTHER)?,
        right: id(COMMIT)?,
    };
    assert!(rt; verdict == found);
    Ok(())
}

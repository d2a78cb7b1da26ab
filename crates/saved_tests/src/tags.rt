// Which tags of a stream are kept.
use crate::values::{COMMIT, STREAM, id};
use bridge_text::{Fault, IdList, IdSet, Refusal};
use git_batch::{ObjectArrivals, read_into};
use git_store::GitStore;
use state_part::Part;
use std::alloc::Global;
use std::test::Fail;
use tag_rule::{TagFault, new_tags};

/// A tag of the commit, a tag of that tag, and a tag of the tree.
const FIRST: &[u8] =
    b"4e026e3f8efe351cd7c35b98f6e630d8bc384c32 tag 97\nobject fb8491d27293299d600326567e91d35289f9\
    9b8d\ntype commit\ntag v1\ntagger u <u@v> 0 +0000\n\nfirst\n\n";

const SECOND: &[u8] =
    b"62daf9a5d2054315cdf5d232d5611c7eef6e13ac tag 94\nobject 4e026e3f8efe351cd7c35b98f6e630d8bc38\
    4c32\ntype tag\ntag v2\ntagger u <u@v> 0 +0000\n\nfirst\n\n";

const OF_TREE: &[u8] =
    b"3cac97f306eba646f427d8745096cd87a16d75f1 tag 95\nobject 0976950c1fdbcb52435a433913017bf044b3\
    a58f\ntype tree\ntag v3\ntagger u <u@v> 0 +0000\n\nfirst\n\n";

const FIRST_ID: &[u8] = b"4e026e3f8efe351cd7c35b98f6e630d8bc384c32";

const SECOND_ID: &[u8] = b"62daf9a5d2054315cdf5d232d5611c7eef6e13ac";

// The store and the objects of the commit's stream with these tags behind it.
fn came(alloc: Global, tags: &[&[u8]]) -> Result<(GitStore, ObjectArrivals), Fail> {
    let mut bytes = STREAM.to_vec(alloc)?;
    for tag in tags {
        bytes.extend_from_slice(tag)?;
    }
    let mut source = Part::new(bytes.as_slice());
    Ok(read_into(alloc, &mut source, GitStore::new(alloc)).map_err(|_| "a stream")?)
}

fn set_of(alloc: Global, ids: &[&[u8]]) -> Result<IdSet, Fail> {
    let mut set = IdSet::new(alloc);
    for digits in ids {
        set.insert(id(digits)?)?;
    }
    Ok(set)
}

// The tags that are newly kept, or why none is.
fn new_of(alloc: Global, tags: &[&[u8]], kept: &[&[u8]]) -> Result<Result<IdList, TagFault>, Fail> {
    let (store, arrivals) = came(alloc, tags)?;
    let commits = set_of(alloc, &[COMMIT])?;
    let kept = set_of(alloc, kept)?;
    Ok(new_tags(alloc, &store, &commits, &kept, &arrivals))
}

// Whether these are the tags that are newly kept, in this order.
fn are_kept(alloc: Global, tags: &[&[u8]], kept: &[&[u8]], want: &[&[u8]]) -> Result<bool, Fail> {
    let new = new_of(alloc, tags, kept)?.map_err(|_| "targets")?;
    Ok(
        new.len() == want.len()
            && new
                .as_slice()
                .iter()
                .zip(want)
                .all(|(id, digits)| id.hex().as_slice() == *digits),
    )
}

/// The tags that come, those that are kept, and those that are newly kept.
const CASES: &[[&[&[u8]]; 3]] = &[
    [&[], &[], &[]],
    [&[FIRST], &[], &[FIRST_ID]],
    [
        &[SECOND, OF_TREE, FIRST, SECOND],
        &[],
        &[SECOND_ID, FIRST_ID],
    ],
    [&[SECOND, FIRST], &[FIRST_ID], &[SECOND_ID]],
    [&[SECOND], &[FIRST_ID], &[SECOND_ID]],
    [&[OF_TREE], &[], &[]],
];

#[test]
fn tags_that_lead_to_a_commit_are_kept(rt: HostRuntime) -> Result<(), Fail> {
    for [tags, kept, want] in CASES {
        let are_kept = are_kept(rt.alloc(), tags, kept, want)?;
        assert!(rt; are_kept);
    }
    Ok(())
}

/// The tags that come, of which `SECOND` lacks its target, and where it stands.
const LACKING: &[(&[&[u8]], u64)] = &[(&[SECOND], 295), (&[OF_TREE, SECOND], 439)];

// Whether `SECOND` is refused at this place.
fn is_refused_at(alloc: Global, tags: &[&[u8]], place: u64) -> Result<bool, Fail> {
    let fault = new_of(alloc, tags, &[])?.err();
    let refusal = Refusal {
        fault: Fault::ObjectUnknown,
        id: id(SECOND_ID)?,
        place,
    };
    Ok(fault == Some(TagFault::Refused(refusal)))
}

#[test]
fn a_tag_without_its_target_is_refused(rt: HostRuntime) -> Result<(), Fail> {
    for (tags, place) in LACKING {
        let is_refused_at = is_refused_at(rt.alloc(), tags, *place)?;
        assert!(rt; is_refused_at);
    }
    Ok(())
}

// The order in which the commits of a stream arrive.
use bridge_text::{Id, IdList, IdSet, Kind, object_id};
use git_store::{GitStore, OrderFault};
use shared_text::keep;
use std::alloc::Global;
use std::process::Abort;
use std::test::Fail;

/// A commit, and two over it, and one over both.
const A: &[u8] = b"2bc3c649dd7000997d3e6abd7a2fa54ba0cfe180";

const B: &[u8] = b"219ad48af48ee515e34938362770aaf2a90693f6";

const C: &[u8] = b"99a013eed8647832af9eb68652cb274d35ca092b";

const D: &[u8] = b"da900862c00d875734bdafdcbb76418425123e02";

/// A commit over the last one and one that never comes, and one over it.
const E: &[u8] = b"f709faa965b535ce6805733a82943f82edc7bfe1";

const F: &[u8] = b"50fe92c8f559d47e7280ff38ec7afa02bed44391";

const NEVER: &[u8] = b"1111111111111111111111111111111111111111";

/// A commit: its id, as `git hash-object -t commit` prints it, with its parents and its message.
type Row = (&'static [u8], &'static [&'static [u8]], u8);

const COMMITS: &[Row] = &[
    (A, &[], b'a'),
    (B, &[A], b'b'),
    (C, &[A], b'c'),
    (D, &[B, C], b'd'),
    (E, &[NEVER, D], b'e'),
    (F, &[E], b'f'),
];

fn id(digits: &[u8]) -> Result<Id, Fail> {
    Ok(Id::from_hex(digits).ok_or("40 digits")?)
}

fn put_parent(text: &mut Vec<u8>, parent: &[u8]) -> Result<(), Fail> {
    text.extend_from_slice(b"parent ")?;
    text.extend_from_slice(parent)?;
    Ok(text.push(b'\n')?)
}

fn content(alloc: Global, parents: &[&[u8]], message: u8) -> Result<Vec<u8>, Fail> {
    let mut text = b"tree 4b825dc642cb6eb9a060e54bf8d69288fbee4904\n".to_vec(alloc)?;
    for parent in parents {
        put_parent(&mut text, parent)?;
    }
    text.extend_from_slice(b"author \ncommitter \n\n")?;
    text.push(message)?;
    Ok(text)
}

// Adds a commit; whether it has its id.
fn add(alloc: Global, store: &mut GitStore, commit: &Row) -> Result<bool, Fail> {
    let (digits, parents, message) = *commit;
    let content = content(alloc, parents, message)?;
    let its_id = object_id(Kind::Commit, &content);
    let is_added = store.add(its_id, Kind::Commit, keep(content)?).is_ok();
    Ok(is_added && its_id.hex().as_slice() == digits)
}

fn filled(rt: &impl Abort, alloc: Global) -> Result<GitStore, Fail> {
    let mut store = GitStore::new(alloc);
    for commit in COMMITS {
        let is_added = add(alloc, &mut store, commit)?;
        assert!(rt; is_added);
    }
    Ok(store)
}

/// The commits of a stream, the saved ones, and the order, or the commit whose parent is unknown.
type Case = (
    &'static [&'static [u8]],
    &'static [&'static [u8]],
    Result<&'static [&'static [u8]], &'static [u8]>,
);

const CASES: &[Case] = &[
    (&[], &[], Ok(&[])),
    (&[A, B, C, D], &[], Ok(&[A, B, C, D])),
    (&[D, C, B, A], &[], Ok(&[A, C, B, D])),
    (&[D, B, A, C], &[], Ok(&[A, B, C, D])),
    (&[B, A, B, A], &[], Ok(&[A, B])),
    (&[D, C], &[A, B], Ok(&[C, D])),
    (&[D, C, B], &[A, C], Ok(&[B, D])),
    (&[F, E, A], &[NEVER, D], Ok(&[E, F, A])),
    (&[F, E, A], &[D], Err(F)),
    (&[B, E], &[NEVER], Err(B)),
];

fn list_of(alloc: Global, digits: &[&[u8]]) -> Result<IdList, Fail> {
    let mut list = IdList::new(alloc);
    for one in digits {
        list.push(id(one)?)?;
    }
    Ok(list)
}

fn set_of(alloc: Global, digits: &[&[u8]]) -> Result<IdSet, Fail> {
    let mut set = IdSet::new(alloc);
    for one in digits {
        set.insert(id(one)?)?;
    }
    Ok(set)
}

// Whether this is the order of these commits, or the fault of the first whose parent is unknown.
fn is_wanted(answer: &Result<IdList, OrderFault>, want: &Result<&[&[u8]], &[u8]>) -> bool {
    match (answer, want) {
        (Ok(placed), Ok(digits)) => are_ids(placed, digits),
        (Err(OrderFault::ParentUnknown(first)), Err(digits)) => first.hex().as_slice() == *digits,
        _ => false,
    }
}

fn are_ids(list: &IdList, digits: &[&[u8]]) -> bool {
    list.len() == digits.len()
        && list
            .as_slice()
            .iter()
            .zip(digits)
            .all(|(id, digits)| id.hex().as_slice() == *digits)
}

fn is_ordered(alloc: Global, store: &GitStore, case: &Case) -> Result<bool, Fail> {
    let (came, saved, want) = *case;
    let came = list_of(alloc, came)?;
    let saved = set_of(alloc, saved)?;
    Ok(is_wanted(&store.order(&came, &saved), &want))
}

#[test]
fn orders(rt: HostRuntime) -> Result<(), Fail> {
    let store = filled(&rt, rt.alloc())?;
    for (i, case) in CASES.iter().enumerate() {
        let is_ordered = is_ordered(rt.alloc(), &store, case)?;
        assert!(rt; is_ordered, "at {i}");
    }
    Ok(())
}

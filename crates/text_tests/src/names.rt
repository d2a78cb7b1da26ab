// The names of refs, read and written for either side.
ghost use Rattle.std.specs.Prelude.{◌∷◌, []};

use bridge_text::Id;
use ref_map::{Lookup, NameFault, Rows, Side, read_names, read_refs, write_names, write_refs};
use std::alloc::Global;
use std::test::Fail;

/// One changeset with its commit, and one kept tag.
#[derive(Drop)]
struct OneOfEach {
    node: Id,
    commit: Id,
    tag: Id,
}

impl Lookup for OneOfEach {
    ghost targets = { λ known. record { pairs = (known.node, known.commit) ∷ []; tags = known.tag ∷ [] } };

    fn commit_of(&self, node: &Id) -> Option<Id> {
        if self.node == *node {
            Some(self.commit)
        } else {
            None
        }
    }

    fn changeset_of(&self, id: &Id) -> Option<Id> {
        if self.commit == *id {
            Some(self.node)
        } else {
            None
        }
    }

    fn has_tag(&self, id: &Id) -> bool {
        *id == self.tag
    }
}

// The digits of the changeset are ones, those of its commit twos, and those of the tag threes.
fn known() -> OneOfEach {
    OneOfEach {
        node: Id::new([0x11; 20]),
        commit: Id::new([0x22; 20]),
        tag: Id::new([0x33; 20]),
    }
}

/// A text of refs in some order, the same in the order of the refs, and the text of the same names on Mercurial's side.
struct Case(&'static [u8], &'static [u8], &'static [u8]);

const TAKEN: &[Case] = &[
    Case(b"", b"", b""),
    Case(
        b"2222222222222222222222222222222222222222 refs/heads/main\n",
        b"2222222222222222222222222222222222222222 refs/heads/main\n",
        b"bookmark 1111111111111111111111111111111111111111 main\n",
    ),
    Case(
        b"2222222222222222222222222222222222222222 refs/heads/refs/heads/a/b\n",
        b"2222222222222222222222222222222222222222 refs/heads/refs/heads/a/b\n",
        b"bookmark 1111111111111111111111111111111111111111 refs/heads/a/b\n",
    ),
    Case(
        b"2222222222222222222222222222222222222222 refs/tags/v1\n",
        b"2222222222222222222222222222222222222222 refs/tags/v1\n",
        b"tag 1111111111111111111111111111111111111111 v1\n",
    ),
    Case(
        b"3333333333333333333333333333333333333333 refs/tags/v2\n",
        b"3333333333333333333333333333333333333333 refs/tags/v2\n",
        b"annotated 3333333333333333333333333333333333333333 v2\n",
    ),
    Case(
        b"3333333333333333333333333333333333333333 refs/heads/main\n",
        b"3333333333333333333333333333333333333333 refs/heads/main\n",
        b"ref 3333333333333333333333333333333333333333 refs/heads/main\n",
    ),
    Case(
        b"2222222222222222222222222222222222222222 refs/hg/phase/2/1111111111111111111111111111111111111111\n\
          2222222222222222222222222222222222222222 refs/hg/phase/0/1111111111111111111111111111111111111111\n\
          2222222222222222222222222222222222222222 refs/hg/phase/1/1111111111111111111111111111111111111111\n",
        b"2222222222222222222222222222222222222222 refs/hg/phase/0/1111111111111111111111111111111111111111\n\
          2222222222222222222222222222222222222222 refs/hg/phase/1/1111111111111111111111111111111111111111\n\
          2222222222222222222222222222222222222222 refs/hg/phase/2/1111111111111111111111111111111111111111\n",
        b"phase 0 1111111111111111111111111111111111111111\n\
          phase 1 1111111111111111111111111111111111111111\n\
          phase 2 1111111111111111111111111111111111111111\n",
    ),
    Case(
        b"2222222222222222222222222222222222222222 refs/hg/phase/3/1111111111111111111111111111111111111111\n",
        b"2222222222222222222222222222222222222222 refs/hg/phase/3/1111111111111111111111111111111111111111\n",
        b"ref 2222222222222222222222222222222222222222 refs/hg/phase/3/1111111111111111111111111111111111111111\n",
    ),
    Case(
        b"2222222222222222222222222222222222222222 refs/hg/phase/1/2222222222222222222222222222222222222222\n",
        b"2222222222222222222222222222222222222222 refs/hg/phase/1/2222222222222222222222222222222222222222\n",
        b"ref 2222222222222222222222222222222222222222 refs/hg/phase/1/2222222222222222222222222222222222222222\n",
    ),
    Case(
        b"3333333333333333333333333333333333333333 refs/hg/phase/1/1111111111111111111111111111111111111111\n",
        b"3333333333333333333333333333333333333333 refs/hg/phase/1/1111111111111111111111111111111111111111\n",
        b"ref 3333333333333333333333333333333333333333 refs/hg/phase/1/1111111111111111111111111111111111111111\n",
    ),
    Case(
        b"2222222222222222222222222222222222222222 refs/@\n\
          3333333333333333333333333333333333333333 refs/-\n",
        b"3333333333333333333333333333333333333333 refs/-\n\
          2222222222222222222222222222222222222222 refs/@\n",
        b"ref 3333333333333333333333333333333333333333 refs/-\n\
          ref 2222222222222222222222222222222222222222 refs/@\n",
    ),
    Case(
        b"2222222222222222222222222222222222222222 refs/heads/a0\n\
          2222222222222222222222222222222222222222 refs/heads/a/b\n\
          2222222222222222222222222222222222222222 refs/heads/a\n\
          2222222222222222222222222222222222222222 refs/heads/a-b\n\
          2222222222222222222222222222222222222222 refs/heads/\xE9\n",
        b"2222222222222222222222222222222222222222 refs/heads/a\n\
          2222222222222222222222222222222222222222 refs/heads/a-b\n\
          2222222222222222222222222222222222222222 refs/heads/a/b\n\
          2222222222222222222222222222222222222222 refs/heads/a0\n\
          2222222222222222222222222222222222222222 refs/heads/\xE9\n",
        b"bookmark 1111111111111111111111111111111111111111 a\n\
          bookmark 1111111111111111111111111111111111111111 a-b\n\
          bookmark 1111111111111111111111111111111111111111 a/b\n\
          bookmark 1111111111111111111111111111111111111111 a0\n\
          bookmark 1111111111111111111111111111111111111111 \xE9\n",
    ),
    Case(
        b"3333333333333333333333333333333333333333 refs/tags/v2\n\
          2222222222222222222222222222222222222222 refs/notes/x\n\
          2222222222222222222222222222222222222222 refs/tags/v1\n\
          2222222222222222222222222222222222222222 refs/heads/main\n\
          2222222222222222222222222222222222222222 refs/hg/phase/1/1111111111111111111111111111111111111111\n",
        b"2222222222222222222222222222222222222222 refs/heads/main\n\
          2222222222222222222222222222222222222222 refs/hg/phase/1/1111111111111111111111111111111111111111\n\
          2222222222222222222222222222222222222222 refs/notes/x\n\
          2222222222222222222222222222222222222222 refs/tags/v1\n\
          3333333333333333333333333333333333333333 refs/tags/v2\n",
        b"bookmark 1111111111111111111111111111111111111111 main\n\
          phase 1 1111111111111111111111111111111111111111\n\
          ref 2222222222222222222222222222222222222222 refs/notes/x\n\
          tag 1111111111111111111111111111111111111111 v1\n\
          annotated 3333333333333333333333333333333333333333 v2\n",
    ),
];

// Whether both writers print this of the names.
fn are_written(
    alloc: Global,
    known: &OneOfEach,
    rows: &Rows,
    refs: &[u8],
    names: &[u8],
) -> Result<bool, Fail> {
    let refs_text = write_refs(alloc, rows)?;
    let names_text = write_names(alloc, known, rows)?;
    Ok(refs_text.as_slice() == refs && names_text.as_slice() == names)
}

// Whether the refs are taken and written in order for both sides, and the names give the same.
fn is_taken(alloc: Global, case: &Case) -> Result<bool, Fail> {
    let Case(text, refs, names) = case;
    let known = known();
    let of_refs = read_refs(alloc, &known, text)?;
    let of_names = read_names(alloc, &known, names)?;
    let are_refs = are_written(alloc, &known, &of_refs, refs, names)?;
    let are_names = are_written(alloc, &known, &of_names, refs, names)?;
    Ok(are_refs && are_names)
}

#[test]
fn names_are_taken_and_written(rt: HostRuntime) -> Result<(), Fail> {
    for (i, case) in TAKEN.iter().enumerate() {
        let is_taken = is_taken(rt.alloc(), case)?;
        assert!(rt; is_taken, "at {i}");
    }
    Ok(())
}

/// Texts that are refused, by the side that has them, and why.
const REFUSED: &[(Side, &[u8], NameFault)] = &[
    (
        Side::Git,
        b"2222222222222222222222222222222222222222 refs/heads/main",
        NameFault::NameShape(1),
    ),
    (Side::Git, b"\n", NameFault::NameShape(1)),
    (
        Side::Git,
        b"2222222222222222222222222222222222222222\n",
        NameFault::NameShape(1),
    ),
    (
        Side::Git,
        b"222222222222222222222222222222222222222 refs/heads/main\n",
        NameFault::NameShape(1),
    ),
    (
        Side::Git,
        b"AAAAAAAAAAAAAAAAAAAAAAAAAAAAAAAAAAAAAAAA refs/heads/main\n",
        NameFault::NameShape(1),
    ),
    (
        Side::Git,
        b"bookmark 1111111111111111111111111111111111111111 main\n",
        NameFault::NameShape(1),
    ),
    (
        Side::Git,
        b"2222222222222222222222222222222222222222 refs/heads/main\n\
          2222222222222222222222222222222222222222 refs/heads/a..b",
        NameFault::NameShape(2),
    ),
    (
        Side::Git,
        b"2222222222222222222222222222222222222222 \n",
        NameFault::RefUnfit(1),
    ),
    (
        Side::Git,
        b"2222222222222222222222222222222222222222  refs/heads/main\n",
        NameFault::RefUnfit(1),
    ),
    (
        Side::Git,
        b"2222222222222222222222222222222222222222 refs/heads/a..b\n",
        NameFault::RefUnfit(1),
    ),
    (
        Side::Git,
        b"2222222222222222222222222222222222222222 refs/heads/.a\n",
        NameFault::RefUnfit(1),
    ),
    (
        Side::Git,
        b"2222222222222222222222222222222222222222 refs/heads/a.lock\n",
        NameFault::RefUnfit(1),
    ),
    (
        Side::Git,
        b"2222222222222222222222222222222222222222 refs/heads/a.\n",
        NameFault::RefUnfit(1),
    ),
    (
        Side::Git,
        b"2222222222222222222222222222222222222222 refs/heads/a@{b\n",
        NameFault::RefUnfit(1),
    ),
    (
        Side::Git,
        b"2222222222222222222222222222222222222222 refs/heads/a b\n",
        NameFault::RefUnfit(1),
    ),
    (
        Side::Git,
        b"2222222222222222222222222222222222222222 refs/heads/a*\n",
        NameFault::RefUnfit(1),
    ),
    (
        Side::Git,
        b"2222222222222222222222222222222222222222 refs/heads//a\n",
        NameFault::RefUnfit(1),
    ),
    (
        Side::Git,
        b"2222222222222222222222222222222222222222 refs/heads/\n",
        NameFault::RefUnfit(1),
    ),
    (
        Side::Git,
        b"2222222222222222222222222222222222222222 refs\n",
        NameFault::RefUnfit(1),
    ),
    (
        Side::Git,
        b"2222222222222222222222222222222222222222 heads/main\n",
        NameFault::RefUnfit(1),
    ),
    (
        Side::Git,
        b"4444444444444444444444444444444444444444 refs/heads/a..b\n",
        NameFault::RefUnfit(1),
    ),
    (
        Side::Git,
        b"2222222222222222222222222222222222222222 refs/heads/a..b\n\
          2222222222222222222222222222222222222222 refs/heads/main\n\
          \n",
        NameFault::RefUnfit(1),
    ),
    (
        Side::Git,
        b"1111111111111111111111111111111111111111 refs/heads/main\n",
        NameFault::TargetUnknown(1),
    ),
    (
        Side::Git,
        b"4444444444444444444444444444444444444444 refs/tags/v1\n",
        NameFault::TargetUnknown(1),
    ),
    (
        Side::Git,
        b"2222222222222222222222222222222222222222 refs/heads/main\n\
          4444444444444444444444444444444444444444 refs/heads/main\n",
        NameFault::TargetUnknown(2),
    ),
    (
        Side::Git,
        b"2222222222222222222222222222222222222222 refs/heads/main\n\
          2222222222222222222222222222222222222222 refs/heads/main\n",
        NameFault::NameTwice(2),
    ),
    (
        Side::Git,
        b"2222222222222222222222222222222222222222 refs/tags/v1\n\
          2222222222222222222222222222222222222222 refs/tags/v\n\
          3333333333333333333333333333333333333333 refs/tags/v1\n",
        NameFault::NameTwice(3),
    ),
    (
        Side::Hg,
        b"bookmark 1111111111111111111111111111111111111111 main",
        NameFault::NameShape(1),
    ),
    (
        Side::Hg,
        b"2222222222222222222222222222222222222222 refs/heads/main\n",
        NameFault::NameShape(1),
    ),
    (
        Side::Hg,
        b"bookmark 1111111111111111111111111111111111111111\n",
        NameFault::NameShape(1),
    ),
    (
        Side::Hg,
        b"branch 1111111111111111111111111111111111111111 main\n",
        NameFault::NameShape(1),
    ),
    (
        Side::Hg,
        b"phase 3 1111111111111111111111111111111111111111\n",
        NameFault::NameShape(1),
    ),
    (
        Side::Hg,
        b"phase 1 1111111111111111111111111111111111111111 \n",
        NameFault::NameShape(1),
    ),
    (
        Side::Hg,
        b"ref 2222222222222222222222222222222222222222 refs/heads/main\n",
        NameFault::NameShape(1),
    ),
    (
        Side::Hg,
        b"ref 2222222222222222222222222222222222222222 refs/heads/a..b\n",
        NameFault::NameShape(1),
    ),
    (
        Side::Hg,
        b"ref 2222222222222222222222222222222222222222 refs/tags/v1\n",
        NameFault::NameShape(1),
    ),
    (
        Side::Hg,
        b"ref 3333333333333333333333333333333333333333 refs/tags/v2\n",
        NameFault::NameShape(1),
    ),
    (
        Side::Hg,
        b"ref 2222222222222222222222222222222222222222 refs/hg/phase/1/1111111111111111111111111111111111111111\n",
        NameFault::NameShape(1),
    ),
    (
        Side::Hg,
        b"bookmark 1111111111111111111111111111111111111111 \n",
        NameFault::RefUnfit(1),
    ),
    (
        Side::Hg,
        b"bookmark 1111111111111111111111111111111111111111  main\n",
        NameFault::RefUnfit(1),
    ),
    (
        Side::Hg,
        b"bookmark 1111111111111111111111111111111111111111 a..b\n",
        NameFault::RefUnfit(1),
    ),
    (
        Side::Hg,
        b"tag 4444444444444444444444444444444444444444 .a\n",
        NameFault::RefUnfit(1),
    ),
    (
        Side::Hg,
        b"annotated 4444444444444444444444444444444444444444 a.lock\n",
        NameFault::RefUnfit(1),
    ),
    (
        Side::Hg,
        b"ref 2222222222222222222222222222222222222222 \n",
        NameFault::RefUnfit(1),
    ),
    (
        Side::Hg,
        b"bookmark 2222222222222222222222222222222222222222 main\n",
        NameFault::TargetUnknown(1),
    ),
    (
        Side::Hg,
        b"tag 3333333333333333333333333333333333333333 v1\n",
        NameFault::TargetUnknown(1),
    ),
    (
        Side::Hg,
        b"phase 1 4444444444444444444444444444444444444444\n",
        NameFault::TargetUnknown(1),
    ),
    (
        Side::Hg,
        b"ref 1111111111111111111111111111111111111111 refs/heads/main\n",
        NameFault::TargetUnknown(1),
    ),
    (
        Side::Hg,
        b"annotated 2222222222222222222222222222222222222222 v1\n",
        NameFault::TagUnknown(1),
    ),
    (
        Side::Hg,
        b"bookmark 1111111111111111111111111111111111111111 main\n\
          annotated 4444444444444444444444444444444444444444 v2\n",
        NameFault::TagUnknown(2),
    ),
    (
        Side::Hg,
        b"bookmark 1111111111111111111111111111111111111111 main\n\
          bookmark 1111111111111111111111111111111111111111 main\n",
        NameFault::NameTwice(2),
    ),
    (
        Side::Hg,
        b"tag 1111111111111111111111111111111111111111 v1\n\
          annotated 3333333333333333333333333333333333333333 v1\n",
        NameFault::NameTwice(2),
    ),
    (
        Side::Hg,
        b"tag 1111111111111111111111111111111111111111 v1\n\
          bookmark 1111111111111111111111111111111111111111 v1\n\
          tag 2222222222222222222222222222222222222222 v1\n\
          phase 4 1111111111111111111111111111111111111111\n",
        NameFault::TargetUnknown(3),
    ),
];

fn read(alloc: Global, known: &OneOfEach, side: Side, text: &[u8]) -> Result<Rows, NameFault> {
    match side {
        Side::Git => read_refs(alloc, known, text),
        Side::Hg => read_names(alloc, known, text),
    }
}

fn is_refused(alloc: Global, side: Side, text: &[u8], want: NameFault) -> bool {
    match read(alloc, &known(), side, text) {
        Ok(_) => false,
        Err(fault) => fault == want,
    }
}

#[test]
fn names_are_refused(rt: HostRuntime) {
    for (i, (side, text, want)) in REFUSED.iter().enumerate() {
        let is_refused = is_refused(rt.alloc(), *side, text, *want);
        assert!(rt; is_refused, "at {i}");
    }
}

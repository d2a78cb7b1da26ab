ghost use Rattle.std.specs.Prelude.{◌≡◌, ◌≤◌, ◌++◌, ◌∷◌, [], IsTrue, length, drop, option_map, codes, decimal, OnOk, IfOk, IfSome, MatchOption};
ghost use Rattle.pair_model.specs.MarkList as model;
ghost use Rattle.pair_model.specs.MarkList.{extra_of, parents_extra, tree_extra, AreExtrasOf, IsPart, IsParentCount, IsTreePart};
ghost use Rattle.mark_code.specs.Values.{changeset_marks};
ghost use Rattle.mark_code.specs.Extras.{part_at, count_at, count_of, tree_at, marks_in_extras, is_key, AreBelow};

use crate::escape::{escaped, unescaped};
use crate::residue_text::{read_residue, residue_text};
use bridge_text::{Bytes, NoMemory, decimal_into, decimal_of};
use git_object::Residue;
use hg_changeset::{ExtraItem, Extras};
use std::alloc::Global;

/// The parts of a commit that the rule would not give back from the changeset: items of the
/// changeset's extras. Each value is escaped, but for the decimal and the residue's text.
#[derive(Debug, Drop)]
pub struct ChangesetMarks {
    /// The author's line, under `hg-git-author`.
    pub author: Option<Bytes>,
    /// The committer's line, under `hg-git-committer`.
    pub committer: Option<Bytes>,
    /// The further header lines, each with its LF, under `hg-git-headers`.
    pub headers: Option<Bytes>,
    /// The message, under `hg-git-message`.
    pub message: Option<Bytes>,
    /// The number of parents, from 3 to 64, in decimal under `hg-git-parents`.
    pub parents: Option<u8>,
    /// What its tree has beside the files that a changeset can hold, under `hg-git-tree`: the words
    /// `group:PATH`, `link:HEX:PATH` and `empty:PATH` in rising order of their paths, with one space
    /// between each two, and the path of each escaped. The empty text is that of no items.
    pub tree: Option<Residue>,
}

const AUTHOR: &[u8] = b"hg-git-author";

const COMMITTER: &[u8] = b"hg-git-committer";

const HEADERS: &[u8] = b"hg-git-headers";

const MESSAGE: &[u8] = b"hg-git-message";

const PARENTS: &[u8] = b"hg-git-parents";

const TREE: &[u8] = b"hg-git-tree";

impl ChangesetMarks {
    /// The marks that the extras are. `None` exactly where they are no marks: an item has another
    /// key, its value is no escape, the number of parents is no decimal from 3 to 64, or the
    /// residue's text has another form.
    pub fn read(alloc: Global, extras: &Extras) -> Result<Option<ChangesetMarks>, NoMemory>
        ensures { IfOk result (λ marks. MatchOption marks ((m : model.ChangesetMarks) → ¬ (AreExtrasOf extras.now m)) (λ marks. AreExtrasOf extras.now (changeset_marks marks))) }
    {
        read_marks(alloc, extras)
    }

    /// The extras that the marks are. The number of parents, where there is one, is from 3 to 64.
    pub fn to_extras(&self, alloc: Global) -> Result<Extras, NoMemory>
        requires { IsParentCount self.now.parents }
        ensures { IfOk result (λ extras. AreExtrasOf extras (changeset_marks self.now)) }
    {
        let mut extras = Extras::new(alloc);
        put_part(alloc, &mut extras, AUTHOR, &self.author)?;
        put_part(alloc, &mut extras, COMMITTER, &self.committer)?;
        put_part(alloc, &mut extras, HEADERS, &self.headers)?;
        put_part(alloc, &mut extras, MESSAGE, &self.message)?;
        put_count(alloc, &mut extras, self.parents)?;
        put_tree(alloc, &mut extras, &self.tree)?;
        Ok(extras)
    }
}

// Puts the item of a part at the end, where there is one. Its key is above the others.
fn put_part(
    alloc: Global,
    extras: &mut Extras,
    key: &[u8],
    part: &Option<Bytes>,
) -> Result<(), NoMemory>
    requires key { IsTrue (is_key key.now) }
    requires above { AreBelow key.now extras.old }
    ensures put { OnOk result (extras.new ≡ extras.old ++ extra_of key.now part.now) }
    ensures bytes { OnOk result (IsPart part.now) }
{
    match part {
        Some(part) => put_item(alloc, extras, key, escaped(alloc, part.as_slice())?),
        None => Ok(()),
    }
}

// Puts the item of the number of parents at the end, where there is one.
fn put_count(alloc: Global, extras: &mut Extras, count: Option<u8>) -> Result<(), NoMemory>
    requires above { AreBelow (codes "hg-git-parents") extras.old }
    ensures { OnOk result (extras.new ≡ extras.old ++ parents_extra count) }
{
    match count {
        Some(count) => put_item(alloc, extras, PARENTS, decimal(alloc, count)?),
        None => Ok(()),
    }
}

// Puts the item of the residue at the end, where there is one.
fn put_tree(alloc: Global, extras: &mut Extras, tree: &Option<Residue>) -> Result<(), NoMemory>
    requires above { AreBelow (codes "hg-git-tree") extras.old }
    ensures put { OnOk result (extras.new ≡ extras.old ++ tree_extra tree.now) }
    ensures residue { OnOk result (IsTreePart tree.now) }
{
    match tree {
        Some(tree) => put_item(alloc, extras, TREE, residue_text(alloc, tree)?),
        None => Ok(()),
    }
}

fn decimal(alloc: Global, count: u8) -> Result<Bytes, NoMemory>
    ensures { IfOk result (λ text. text ≡ decimal count) }
{
    let mut text = Vec::new(alloc);
    decimal_into(&mut text, u64::from(count))?;
    Ok(Bytes::keep(text))
}

fn put_item(alloc: Global, extras: &mut Extras, key: &[u8], value: Bytes) -> Result<(), NoMemory>
    requires key { IsTrue (is_key key.now) }
    requires above { AreBelow key.now extras.old }
    ensures { OnOk result (extras.new ≡ extras.old ++ record { key = key.now; value = value } ∷ []) }
{
    let key = Bytes::of(alloc, key)?;
    extras.push(ExtraItem { key, value })
}

#[tactic(auto, unfolding(crate::specs::Extras::marks_in_extras))]
fn read_marks(alloc: Global, extras: &Extras) -> Result<Option<ChangesetMarks>, NoMemory>
    ensures { IfOk result (λ marks. option_map changeset_marks marks ≡ marks_in_extras extras.now) }
{
    let Some((author, behind)) = part_at(alloc, extras, 0, AUTHOR)? else {
        return Ok(None);
    };
    let Some((committer, behind)) = part_at(alloc, extras, behind, COMMITTER)? else {
        return Ok(None);
    };
    let Some((headers, behind)) = part_at(alloc, extras, behind, HEADERS)? else {
        return Ok(None);
    };
    let Some((message, behind)) = part_at(alloc, extras, behind, MESSAGE)? else {
        return Ok(None);
    };
    let Some((parents, behind)) = count_at(extras, behind) else {
        return Ok(None);
    };
    let Some(tree) = tree_at(alloc, extras, behind)? else {
        return Ok(None);
    };
    Ok(Some(ChangesetMarks {
        author,
        committer,
        headers,
        message,
        parents,
        tree,
    }))
}

// The value of the item at a place, where it has this key, and the place behind it.
fn part_at(
    alloc: Global,
    extras: &Extras,
    place: usize,
    key: &[u8],
) -> Result<Option<(Option<Bytes>, usize)>, NoMemory>
    requires { place ≤ length extras.now }
    ensures read { IfOk result (λ part. option_map (λ p. (p.0, drop p.1 extras.now)) part ≡ part_at key.now (drop place extras.now)) }
    ensures within { IfOk result (λ part. IfSome part (λ p. p.1 ≤ length extras.now)) }
{
    if place == extras.len() {
        return Ok(Some((None, place)));
    }
    let item = extras.at(place);
    if item.key.as_slice() != key {
        return Ok(Some((None, place)));
    }
    match unescaped(alloc, item.value.as_slice())? {
        Some(part) => Ok(Some((Some(part), place + 1))),
        None => Ok(None),
    }
}

// The number of parents, where the item at a place has its key, and the place behind it.
fn count_at(extras: &Extras, place: usize) -> Option<(Option<u8>, usize)>
    requires { place ≤ length extras.now }
    ensures read { option_map (λ p. (p.0, drop p.1 extras.now)) result ≡ count_at (drop place extras.now) }
    ensures within { IfSome result (λ p. p.1 ≤ length extras.now) }
{
    if place == extras.len() {
        return Some((None, place));
    }
    let item = extras.at(place);
    if item.key.as_slice() != PARENTS {
        return Some((None, place));
    }
    let count = count_of(item.value.as_slice())?;
    Some((Some(count), place + 1))
}

// The number of parents that a decimal names, from 3 to 64.
fn count_of(text: &[u8]) -> Option<u8>
    ensures { result ≡ count_of text.now }
{
    let count = decimal_of(text)?;
    if 3 <= count && count <= 64 {
        Some(count as u8)
    } else {
        None
    }
}

// The residue, whose item alone may stand at a place and behind it.
fn tree_at(
    alloc: Global,
    extras: &Extras,
    place: usize,
) -> Result<Option<Option<Residue>>, NoMemory>
    requires { place ≤ length extras.now }
    ensures { IfOk result (λ tree. tree ≡ tree_at (drop place extras.now)) }
{
    if place == extras.len() {
        return Ok(Some(None));
    }
    let item = extras.at(place);
    if place + 1 < extras.len() {
        return Ok(None);
    }
    if item.key.as_slice() != TREE {
        return Ok(None);
    }
    match read_residue(alloc, item.value.as_slice())? {
        Some(tree) => Ok(Some(Some(tree))),
        None => Ok(None),
    }
}

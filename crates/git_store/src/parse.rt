ghost use Rattle.std.specs.Prelude.{◌≡◌, None, IfOk, IfErr, OnOk};
ghost use Rattle.text_model.specs.Id.{tree, commit, tag};
ghost use Rattle.bridge_text.specs.Kinds.{object_kind};
ghost use Rattle.git_model.specs.Object.{content_fault};
ghost use Rattle.git_store.specs.Faults.{IsFault};
ghost use Rattle.git_store.specs.Held.{IsParsed};

use crate::fault::GitAddFault;
use crate::held::Parsed;
use crate::parents::check_parents;
use bridge_text::Kind;
use git_object::{Commit, CommitFault, Tag, TagFault, Tree, TreeReadFault};
use std::alloc::Global;

/// What a content of a kind says.
pub fn parse(alloc: Global, kind: Kind, content: &[u8]) -> Result<Parsed, GitAddFault>
    ensures fits { OnOk result (content_fault (object_kind kind) content.now ≡ None) }
    ensures value { IfOk result (IsParsed (object_kind kind) content.now) }
    ensures fault { IfErr result (IsFault (content_fault (object_kind kind) content.now)) }
{
    match kind {
        Kind::Blob => Ok(Parsed::Blob),
        Kind::Tree => parse_tree(alloc, content),
        Kind::Commit => parse_commit(alloc, content),
        Kind::Tag => parse_tag(alloc, content),
    }
}

fn parse_tree(alloc: Global, content: &[u8]) -> Result<Parsed, GitAddFault>
    ensures fits { OnOk result (content_fault tree content.now ≡ None) }
    ensures value { IfOk result (IsParsed tree content.now) }
    ensures fault { IfErr result (IsFault (content_fault tree content.now)) }
{
    match Tree::read(alloc, content) {
        Ok(tree) => Ok(Parsed::Tree(tree)),
        Err(TreeReadFault::Shape(_)) => Err(GitAddFault::ObjectShape),
        Err(TreeReadFault::ModeOut(_)) => Err(GitAddFault::ModeOut),
        Err(TreeReadFault::NameUnfit(_)) => Err(GitAddFault::NameUnfit),
        Err(TreeReadFault::Memory) => Err(GitAddFault::Memory),
    }
}

fn parse_commit(alloc: Global, content: &[u8]) -> Result<Parsed, GitAddFault>
    ensures fits { OnOk result (content_fault commit content.now ≡ None) }
    ensures value { IfOk result (IsParsed commit content.now) }
    ensures fault { IfErr result (IsFault (content_fault commit content.now)) }
{
    let commit = match Commit::read(alloc, content) {
        Ok(commit) => commit,
        Err(CommitFault::Shape(_)) => return Err(GitAddFault::ObjectShape),
        Err(CommitFault::Memory) => return Err(GitAddFault::Memory),
    };
    check_parents(alloc, commit.parents.as_slice())?;
    Ok(Parsed::Commit(commit))
}

fn parse_tag(alloc: Global, content: &[u8]) -> Result<Parsed, GitAddFault>
    ensures fits { OnOk result (content_fault tag content.now ≡ None) }
    ensures value { IfOk result (IsParsed tag content.now) }
    ensures fault { IfErr result (IsFault (content_fault tag content.now)) }
{
    match Tag::read(alloc, content) {
        Ok(tag) => Ok(Parsed::Tag(tag)),
        Err(TagFault::Shape(_)) => Err(GitAddFault::ObjectShape),
        Err(TagFault::Memory) => Err(GitAddFault::Memory),
    }
}

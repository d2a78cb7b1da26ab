ghost use Rattle.std.specs.Prelude.{◌≡◌, ◌++◌, ◌∷◌, [], is_some, IfOk, OnOk, IsTrue, false};
ghost use Rattle.text_model.specs.Text.{IsBytes};
ghost use Rattle.text_model.specs.Id as id;
ghost use Rattle.hg_changeset.specs.Values.{changeset_value, date_value};
ghost use Rattle.pair_model.specs.Rule.{author_by};
ghost use Rattle.pair_model.specs.User.{message_of};
ghost use Rattle.pair_known.specs.Partners.{git_at};
ghost use Rattle.commit_rule.specs.Parts.{partners_at};

use bridge_text::{Bytes, Id, IdList, NoMemory};
use git_object::Commit;
use hg_changeset::{Changeset, DateLine};
use name_rule::{line_of_user, message_of_desc};
use pair_known::Partners;
use std::alloc::Global;

// Appends the partner of a parent that is there.
fn push_partner(parents: &mut IdList, partners: &Partners, node: &Id) -> Result<(), NoMemory>
    requires has { id.is_null node.now ≡ false → IsTrue (is_some (git_at partners.now node.now)) }
    ensures { OnOk result (parents.new ≡ parents.old ++ partners_at partners.now (node.now ∷ [])) }
{
    if node.is_null() {
        return Ok(());
    }
    match partners.git_of(node) {
        Some(partner) => parents.push(partner),
        None => unreachable!(),
    }
}

// The partners of two parents that are there.
fn partners_of(alloc: Global, partners: &Partners, p: &Id, q: &Id) -> Result<IdList, NoMemory>
    requires first { id.is_null p.now ≡ false → IsTrue (is_some (git_at partners.now p.now)) }
    requires second { id.is_null q.now ≡ false → IsTrue (is_some (git_at partners.now q.now)) }
    ensures { IfOk result (λ parents. parents ≡ partners_at partners.now (p.now ∷ q.now ∷ [])) }
{
    let mut parents = IdList::new(alloc);
    push_partner(&mut parents, partners, p)?;
    push_partner(&mut parents, partners, q)?;
    Ok(parents)
}

/// The author's line: of a date line that can't be read the time and the zone are 0.
pub fn author_of(alloc: Global, changeset: &Changeset) -> Result<Bytes, NoMemory>
    ensures line { IfOk result (λ line. line ≡ author_by (changeset_value changeset.now).user (changeset_value changeset.now).date) }
    ensures bytes { IfOk result (λ line. IsBytes line) }
{
    line_at(alloc, changeset.user.as_slice(), &changeset.date)
}

// The line of a user at a date.
fn line_at(alloc: Global, user: &[u8], date: &DateLine) -> Result<Bytes, NoMemory>
    ensures line { IfOk result (λ line. line ≡ author_by user.now (date_value date.now)) }
    ensures bytes { IfOk result (λ line. IsBytes line) }
{
    let (time, tz) = match *date {
        DateLine::Plain { time, tz, .. } => (time, tz),
        DateLine::Raw(_) => (0, 0),
    };
    line_of_user(alloc, user, time, tz)
}

/// The fields of the commit of a changeset with this tree, whose parents have partners.
pub fn fields_of(
    alloc: Global,
    partners: &Partners,
    p: &Id,
    q: &Id,
    changeset: &Changeset,
    tree: Id,
) -> Result<Commit, NoMemory>
    requires first { id.is_null p.now ≡ false → IsTrue (is_some (git_at partners.now p.now)) }
    requires second { id.is_null q.now ≡ false → IsTrue (is_some (git_at partners.now q.now)) }
    ensures fields { IfOk result (λ c. c ≡ record {
      tree_id = tree;
      parents = partners_at partners.now (p.now ∷ q.now ∷ []);
      author = author_by (changeset_value changeset.now).user (changeset_value changeset.now).date;
      committer = author_by (changeset_value changeset.now).user (changeset_value changeset.now).date;
      headers = [];
      message = message_of (changeset_value changeset.now).description;
    }) }
    ensures author { IfOk result (λ c. IsBytes c.author) }
{
    let author = author_of(alloc, changeset)?;
    Ok(Commit {
        tree,
        parents: partners_of(alloc, partners, p, q)?,
        committer: Bytes::of(alloc, author.as_slice())?,
        author,
        headers: Bytes::new(alloc),
        message: message_of_desc(alloc, changeset.desc.as_slice())?,
    })
}

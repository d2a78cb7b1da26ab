// The links of the commit that the marks of a changeset name.
ghost use Rattle.std.specs.Prelude.{◌≡◌, ◌-◌, ◌↔◌, length, slice_get, bytes_eq, IfOk, IsTrue};
ghost use Rattle.std.specs.List.{list_all, list_any};
ghost use Rattle.text_model.specs.Id as text;
ghost use Rattle.git_model.specs.Commit.{commit_text};
ghost use Rattle.git_model.specs.Tree.{has_distinct};
ghost use Rattle.view_model.specs.View.{ChangesetView};
ghost use Rattle.link_rule.specs.Links.{links_along};
ghost use Rattle.changeset_unmark.specs.Links.{has_node, is_known_link, AreLinksThere};

use bridge_text::{Id, Kind, NoMemory, object_id};
use git_object::Commit;
use hg_store::HgStore;
use link_rule::{Link, Octopus};
use std::alloc::Global;

/// Whether the links of a commit, whose parents have these partners, are known, and the last of them has this node. The manifest is that of
/// the first partner.
pub fn are_links_known(
    alloc: Global,
    store: &HgStore,
    commit: &Commit,
    manifest: Id,
    nodes: &[Id],
    last: &Id,
) -> Result<bool, NoMemory>
    ensures { IfOk result (λ known. (base : ChangesetView) → (base.fields).manifest ≡ manifest
        → (IsTrue known ↔ AreLinksThere store.now last.now (links_along (text.object_id text.commit (commit_text commit.now)) base (length nodes.now) nodes.now))) }
{
    let octopus = Octopus {
        commit: id_of(alloc, commit)?,
        count: nodes.len() as u64,
        manifest,
    };
    let links = octopus.links(alloc, nodes)?;
    if !are_known(store, links.as_slice()) {
        return Ok(false);
    }
    Ok(ends_at(links.as_slice(), last))
}

// The id of a commit.
fn id_of(alloc: Global, commit: &Commit) -> Result<Id, NoMemory>
    ensures { IfOk result (λ id. id ≡ text.object_id text.commit (commit_text commit.now)) }
{
    let mut content = Vec::new(alloc);
    commit.write_into(&mut content)?;
    Ok(object_id(Kind::Commit, content.as_slice()))
}

fn are_known(store: &HgStore, links: &[Link]) -> bool
    ensures { result ≡ list_all (is_known_link store.now) links.now }
{
    links.iter().all(
        |link: &Link| -> bool
            ensures { result ≡ is_known_link store.entry.now link.now }
        { is_known(store, link) },
    )
}

// Whether a link is known.
fn is_known(store: &HgStore, link: &Link) -> bool
    ensures { result ≡ is_known_link store.now link.now }
{
    let Some((p, q)) = store.parents_of(&link.node) else {
        return false;
    };
    let Some(text) = store.text_of(&link.node) else {
        return false;
    };
    p == link.p && q == link.q && text == link.text.as_slice()
}

// Whether the last link has this node.
fn ends_at(links: &[Link], last: &Id) -> bool
    ensures { result ≡ has_node last.now (slice_get links.now (length links.now - 1)) }
{
    match links.last() {
        Some(link) => link.node == *last,
        None => false,
    }
}

/// Whether no id stands twice.
pub fn are_distinct(ids: &[Id]) -> bool
    ensures { result ≡ has_distinct ids.now }
{
    let [first, rest @ ..] = ids else {
        return true;
    };
    if is_among(first, rest) {
        return false;
    }
    are_distinct(rest)
}

fn is_among(id: &Id, ids: &[Id]) -> bool
    ensures { result ≡ list_any (bytes_eq id.now) ids.now }
{
    ids.iter().any(
        |other: &Id| -> bool
            ensures { result ≡ bytes_eq id.entry.now other.now }
        { id == other },
    )
}

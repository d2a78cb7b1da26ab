ghost use Rattle.std.specs.Prelude.{◌≡◌, List, map, unwrap_or, IfOk};
ghost use Rattle.std.specs.List.{AllZip};
ghost use Rattle.text_model.specs.Id as text;
ghost use Rattle.git_model.specs.Commit.{commit_text};
ghost use Rattle.view_model.specs.View.{CommitView};
ghost use Rattle.pair_model.specs.Block.{Block};
ghost use Rattle.pair_model.specs.Octopus as octopus;
ghost use Rattle.pair_known.specs.Over.{IsCommitOver};
ghost use Rattle.pair_known.specs.Partners.{hg_at};
ghost use Rattle.link_rule.specs.Links.{IsLinkOf};

use crate::link::Link;
use crate::octopus::Octopus;
use bridge_text::{Id, IdList, Kind, NoMemory, object_id};
use file_rule::parent_of;
use git_object::Commit;
use pair_known::{GitDraft, Known, Partners};
use std::alloc::Global;

/// The links of a commit whose parents have partners, but for their files; none below three parents.
pub fn chain_of(alloc: Global, known: &Known, c: &GitDraft) -> Result<Vec<Link>, NoMemory>
    requires over { (blocks : List Block) × (v : CommitView) × IsCommitOver known.now blocks c.now v }
    ensures { IfOk result (λ links. (blocks : List Block) (v : CommitView) → IsCommitOver known.now blocks c.now v
        → AllZip IsLinkOf links.items (octopus.links_of blocks v)) }
{
    let parents = c.commit.parents.as_slice();
    if parents.len() < 3 {
        return Ok(Vec::new(alloc));
    }
    let partners = partners_of(alloc, &known.partners, parents)?;
    let octopus = Octopus {
        commit: id_of(alloc, &c.commit)?,
        count: parents.len() as u64,
        manifest: parent_of(&known.hg, partners.at(0)).manifest_node,
    };
    octopus.links(alloc, partners.as_slice())
}

// The partners of commits; the null id for each that has none.
fn partners_of(alloc: Global, partners: &Partners, ids: &[Id]) -> Result<IdList, NoMemory>
    ensures { IfOk result (λ nodes. nodes ≡ map (λ id. unwrap_or (hg_at partners.now id) text.null) ids.now) }
{
    let mut nodes = IdList::new(alloc);
    for id in ids {
        nodes.push(partners.hg_of(id).unwrap_or(Id::NULL))?;
    }
    Ok(nodes)
}

// The id of a commit.
fn id_of(alloc: Global, commit: &Commit) -> Result<Id, NoMemory>
    ensures { IfOk result (λ id. id ≡ text.object_id text.commit (commit_text commit.now)) }
{
    let mut content = Vec::new(alloc);
    commit.write_into(&mut content)?;
    Ok(object_id(Kind::Commit, content.as_slice()))
}

// The partners of the parents that a changeset names.
ghost use Rattle.std.specs.Prelude.{◌≡◌, ◌++◌, ◌∷◌, [], true, false, IfOk, MatchOption};
ghost use Rattle.commit_rule.specs.Parts.{partners_at};
ghost use Rattle.changeset_unmark.specs.Parents.{HavePartners};

use bridge_text::{Id, IdList, NoMemory};
use pair_known::Partners;
use std::alloc::Global;

/// The partners of the nodes that aren't null, in their order. `None` exactly where one of them has none.
pub fn partners_of(
    alloc: Global,
    partners: &Partners,
    nodes: &[Id],
) -> Result<Option<IdList>, NoMemory>
    ensures { IfOk result (λ found. MatchOption found (¬ (HavePartners partners.now nodes.now))
        (λ ids. HavePartners partners.now nodes.now × (ids ≡ partners_at partners.now nodes.now))) }
{
    let mut parents = IdList::new(alloc);
    for node in nodes {
        if !push_partner(&mut parents, partners, node)? {
            return Ok(None);
        }
    }
    Ok(Some(parents))
}

// Appends the partner of a node that isn't null, and says whether it has one; the null node needs none.
fn push_partner(parents: &mut IdList, partners: &Partners, node: &Id) -> Result<bool, NoMemory>
    ensures had { IfOk result (λ had. had ≡ true → HavePartners partners.now (node.now ∷ [])) }
    ensures lacks { IfOk result (λ had. had ≡ false → HavePartners partners.now (node.now ∷ []) → ⊥) }
    ensures pushed { IfOk result (λ had. had ≡ true → parents.new ≡ parents.old ++ partners_at partners.now (node.now ∷ [])) }
{
    if node.is_null() {
        return Ok(true);
    }
    match partners.git_of(node) {
        Some(partner) => {
            parents.push(partner)?;
            Ok(true)
        }
        None => Ok(false),
    }
}

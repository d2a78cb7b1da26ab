// What a bundle leaves over: entries to which no changeset refers, and links that stand in no block.
ghost use Rattle.std.specs.Prelude.{◌≡◌, ◌⊎◌, ◌↔◌, ◌++◌, true, false, List, map, IsTrue, IfOk, IfErr, OnOk, MatchOption};
ghost use Rattle.text_model.specs.Lists.{Each, IsFirstThat};
ghost use Rattle.text_model.specs.Id as text;
ghost use Rattle.text_model.specs.Id.{has_id};
ghost use Rattle.hg_model.specs.Revision.{Revision};
ghost use Rattle.hg_model.specs.Reading as model;
ghost use Rattle.hg_bundle.specs.Arrivals.{arrival_of};
ghost use Rattle.pair_model.specs.Block.{Block};
ghost use Rattle.history_model.specs.Pull.{IsOrphan, Dangles, LeftOver};
ghost use Rattle.hg_dump.specs.Refers.{RefersTo};
ghost use Rattle.pair_state.specs.Blocks.{IsStateOf};
ghost use Rattle.pull_outcome.specs.Names.{IsOfPullHg};
ghost use Rattle.pull_outcome.specs.Refused.{IsRefusedBy};
ghost use Rattle.pull_bundle.specs.Faults.{IsNoRead};
ghost use Rattle.pull_bundle.specs.LeftOver.{HasTaken, HasNothingOver, IsFirstOrphan, AreReferred, NameMore, NamesManifest};

use crate::arrivals::is_changeset;
use crate::link::is_known_link;
use bridge_text::{Id, IdSet, NoMemory};
use hg_bundle::{Arrival, Arrivals, RevKind};
use hg_dump::Refers;
use hg_store::{Group, HgStore};
use pair_state::StateParts;
use pull_outcome::{Fault, PullFault, Refusal};
use std::alloc::Global;

/// Passes where a changeset refers to each new manifest and file revision of a bundle, and each link stands in a block. Orphan comes exactly
/// at the first entry to which none refers, be it a link; else DanglingLink at the first link that stands in no block.
pub fn check_left_over(
    alloc: Global,
    state: &StateParts,
    referred: Refers,
    arrivals: &Arrivals,
) -> Result<(), PullFault>
    ensures ok { OnOk result ((blocks : List Block) (came : List model.Arrival) → HasTaken state.now referred blocks arrivals.now came → HasNothingOver state.now.known.hg blocks came) }
    ensures refused { IfErr result (λ fault. (blocks : List Block) (came : List model.Arrival) → HasTaken state.now referred blocks arrivals.now came
        → IsRefusedBy (LeftOver state.now.known.hg blocks came) fault) }
    ensures names { IfErr result IsOfPullHg }
    ensures no_read { IfErr result IsNoRead }
{
    match first_dangling(state, arrivals) {
        None => check_orphans(&referred, arrivals),
        Some(arrival) => {
            let all = with_links(alloc, state, referred, arrivals)?;
            check_orphans(&all, arrivals)?;
            Err(PullFault::Refused(Refusal {
                fault: Fault::DanglingLink,
                id: arrival.node,
                place: arrival.at,
            }))
        }
    }
}

// The first link that stands in no block.
fn first_dangling<'a>(state: &StateParts, arrivals: &'a Arrivals) -> Option<&'a Arrival>
    ensures { MatchOption result
        ((blocks : List Block) (came : List model.Arrival) → IsStateOf state.now blocks → arrivals.now ≡ map arrival_of came → Each (λ a. ¬ (Dangles state.now.known.hg blocks a)) came)
        (λ found. (blocks : List Block) (came : List model.Arrival) → IsStateOf state.now blocks → arrivals.now ≡ map arrival_of came
        → (a : model.Arrival) × (found.now ≡ arrival_of a) × IsFirstThat (Dangles state.now.known.hg blocks) came a) }
{
    for place in 0..arrivals.len() {
        let arrival = arrivals.at(place);
        if dangles(state, arrival) {
            return Some(arrival);
        }
    }
    None
}

// Whether an entry is a link that stands in no block.
fn dangles(state: &StateParts, arrival: &Arrival) -> bool
    ensures { (blocks : List Block) (a : model.Arrival) → IsStateOf state.now blocks → arrival.now ≡ arrival_of a → IsTrue result ↔ Dangles state.now.known.hg blocks a }
{
    if !is_changeset(arrival) {
        return false;
    }
    is_known_link(&state.known.hg, &arrival.node) && !state.changesets.contains(&arrival.node)
}

// Adds what is named by the links that stand in no block. Of those with one manifest the first names all.
fn with_links(
    alloc: Global,
    state: &StateParts,
    referred: Refers,
    arrivals: &Arrivals,
) -> Result<Refers, NoMemory>
    ensures { IfOk result (λ next. (blocks : List Block) (came : List model.Arrival) (rs : List Revision) → IsStateOf state.now blocks → arrivals.now ≡ map arrival_of came → RefersTo referred rs
        → (more : List Revision) × NameMore state.now.known.hg blocks came more × RefersTo next (rs ++ more)) }
{
    let hg = &state.known.hg;
    let mut next = referred;
    let mut manifests = IdSet::new(alloc);
    for place in 0..arrivals.len() {
        let arrival = arrivals.at(place);
        if dangles(state, arrival) && is_first_of_manifest(hg, &arrival.node, &mut manifests)? {
            next.add_named(hg, &arrival.node)?;
        }
    }
    Ok(next)
}

// Whether the manifest that a changeset names is none of these, among which it is put.
fn is_first_of_manifest(hg: &HgStore, node: &Id, manifests: &mut IdSet) -> Result<bool, NoMemory>
    ensures again { IfOk result (λ first. first ≡ false → (m : text.Id) → NamesManifest hg.now node.now m → has_id manifests.old m ≡ true) }
    ensures named { OnOk result ((m : text.Id) → has_id manifests.new m ≡ true → (has_id manifests.old m ≡ true) ⊎ NamesManifest hg.now node.now m) }
{
    match hg.changeset(node) {
        Some((_, _, changeset)) => manifests.insert(changeset.manifest),
        None => Ok(false),
    }
}

// Passes where a changeset refers to each new manifest and file revision. Orphan comes exactly at the first to which none refers.
fn check_orphans(referred: &Refers, arrivals: &Arrivals) -> Result<(), PullFault>
    ensures ok { OnOk result ((known : List Revision) (came : List model.Arrival) → AreReferred known referred.now → arrivals.now ≡ map arrival_of came
        → Each (λ a. ¬ (IsOrphan known a)) came) }
    ensures refused { IfErr result (λ fault. (known : List Revision) (came : List model.Arrival) → AreReferred known referred.now → arrivals.now ≡ map arrival_of came
        → IsRefusedBy (IsFirstOrphan known came) fault) }
    ensures names { IfErr result IsOfPullHg }
    ensures no_read { IfErr result IsNoRead }
{
    for place in 0..arrivals.len() {
        let arrival = arrivals.at(place);
        if is_orphan(referred, arrival) {
            return Err(PullFault::Refused(Refusal {
                fault: Fault::Orphan,
                id: arrival.node,
                place: arrival.at,
            }));
        }
    }
    Ok(())
}

// Whether an entry is a new manifest or file revision to which no changeset refers.
fn is_orphan(referred: &Refers, arrival: &Arrival) -> bool
    ensures { (known : List Revision) (a : model.Arrival) → AreReferred known referred.now → arrival.now ≡ arrival_of a → IsTrue result ↔ IsOrphan known a }
{
    if !arrival.fresh {
        return false;
    }
    match arrival.kind {
        RevKind::Changeset => false,
        RevKind::Manifest => !referred.has(Group::Manifests, &arrival.node),
        RevKind::File => !referred.has(Group::FilesAt(arrival.path.as_slice()), &arrival.node),
    }
}

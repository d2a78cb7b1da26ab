//! Laws of the dumps of a history and of a state's text: how dumps grow, what is read of them, and that a text is that of one state. No code.
#![tactic(auto)]

ghost use Rattle.std.specs.Prelude.{◌≡◌, ◌≤◌, List, [], map, filter, length, is_ok, IsTrue, None, Ok};
ghost use Rattle.text_model.specs.Lists.{Each, only_new};
ghost use Rattle.text_model.specs.Text.{Bytes};
ghost use Rattle.text_model.specs.Id.{commit, same_kind};
ghost use Rattle.hg_model.specs.Revision.{Changesets, Revision, known_after_all};
ghost use Rattle.hg_model.specs.Reading.{bundle_reading};
ghost use Rattle.git_model.specs.Object.{Object, objects_after_all, same_object};
ghost use Rattle.git_model.specs.Unfold.{walk_fault};
ghost use Rattle.git_model.specs.Stream.{Placed, stream_reading};
ghost use Rattle.view_model.specs.View.{ChangesetView, CommitView, IsChangesetView, changeset_node, commit_id};
ghost use Rattle.view_model.specs.Held.{AreChangesetsHeld, AreCommitsHeld};
ghost use Rattle.view_model.specs.Dump.{brought_by, of_group, objects_in, hg_increment};
ghost use Rattle.state_model.specs.Kept.{State, kept_of, hg_dump, git_dump};
ghost use Rattle.state_model.specs.Limits.{dump_limit};
ghost use Rattle.state_model.specs.Names.{targets_in, AreNames};
ghost use Rattle.state_model.specs.Saved.{AreDumped, AreCommitsSaved, IsState, IsStateText};
ghost use Rattle.name_model.specs.Targets.{AreTargets};
ghost use Rattle.hg_dump_law.specs.Taken.{AreParentsEarlier, Brings, in_bundle_order};
ghost use Rattle.dump_law.specs.Grown.{StreamGrows, RevisionsGrow, GroupGrows};
ghost use Rattle.dump_law.specs.Sizes.{BundleSize, StreamSize, BundleGrows, LimitIsKept};
ghost use Rattle.dump_law.specs.Same.{KnownTurns, ViewsAreSame, BundlesAreSame, StreamsAreSame};
ghost use Rattle.dump_law.specs.Bases.{BaseIsSame};

/// Behind more changesets or commits each group of the bundle and the stream go on where they ended: what was written before stands
/// unchanged, and what comes behind it is made of the new revisions and objects alone.
pub fn dumps_grow()
    ensures stream { StreamGrows }
    ensures revisions { RevisionsGrow }
    ensures group { GroupGrows }
{}

/// The length of a bundle is a sum over its entries and paths, that of a stream one over its objects. What new changesets add to a
/// bundle is a sum over what they bring and the paths that are new. A limit once passed stays passed.
pub fn dump_sizes()
    ensures bundle { BundleSize }
    ensures stream { StreamSize }
    ensures grows { BundleGrows }
    ensures limit { LimitIsKept }
{}

/// A dump is that of one list of changesets, or of one list of commits.
pub fn dumps_are_one()
    ensures hg { (hs ks : List ChangesetView) → AreDumped hs → AreDumped ks → hg_dump hs ≡ hg_dump ks → hs ≡ ks }
    ensures git { (cs ds : List CommitView) → AreCommitsSaved cs → AreCommitsSaved ds → git_dump cs ≡ git_dump ds → cs ≡ ds }
{}

/// The dump of changesets brings their revisions in the order of the bundle (`hg`), the changesets in their own order (`nodes`). What is
/// known then holds each changeset under its node (`held`), and the parents of each revision belong to earlier changesets (`earlier`). The
/// dump of commits brings their objects (`git`), the commits in their own order (`ids`). What is known then holds each commit under its id
/// (`commits`), and the walk through its tree ends without a refusal (`walks`).
pub fn dump_is_read()
    ensures hg { (hs : List ChangesetView) → AreDumped hs → Brings [] (hg_dump hs) (in_bundle_order (brought_by [] hs)) }
    ensures nodes { (hs : List ChangesetView) → AreDumped hs → map (λ (r : Revision). r.node) (of_group Changesets (in_bundle_order (brought_by [] hs))) ≡ map changeset_node hs }
    ensures held { (hs : List ChangesetView) → AreDumped hs → AreChangesetsHeld (known_after_all [] (in_bundle_order (brought_by [] hs))) (map changeset_node hs) hs }
    ensures earlier { (hs : List ChangesetView) → AreDumped hs → AreParentsEarlier [] hs }
    ensures git { (cs : List CommitView) → AreCommitsSaved cs
        → (came : List Placed) × (stream_reading [] (git_dump cs) ≡ Ok came) × (map (λ o. o.object) came ≡ only_new same_object [] (objects_in cs)) }
    ensures ids { (cs : List CommitView) → AreCommitsSaved cs → map (λ (o : Object). o.id) (filter (λ o. same_kind commit o.kind) (only_new same_object [] (objects_in cs))) ≡ map commit_id cs }
    ensures commits { (cs : List CommitView) → AreCommitsSaved cs → AreCommitsHeld (objects_after_all [] (only_new same_object [] (objects_in cs))) (map commit_id cs) cs }
    ensures walks { (cs : List CommitView) → AreCommitsSaved cs → Each (λ c. walk_fault (objects_after_all [] (only_new same_object [] (objects_in cs))) (c.value).tree_id ≡ None) cs }
{}

/// Whatever revisions a writer knows, it writes the dump of changesets that can be dumped (`dumped`), and what it writes is their dump if it
/// can be read where nothing is known (`read`): there no group begins with a revision that has a first parent. Behind old changesets the
/// bundle is that over the history's own revisions where all are held (`increment`).
pub fn dump_has_no_base()
    ensures dumped { (hs : List ChangesetView) → AreDumped hs → (known : List Revision) → hg_increment known [] hs ≡ hg_dump hs }
    ensures read { (known : List Revision) (hs : List ChangesetView) → Each IsChangesetView hs → length (hg_increment known [] hs) ≤ dump_limit
        → IsTrue (is_ok (bundle_reading [] (hg_increment known [] hs))) → hg_increment known [] hs ≡ hg_dump hs }
    ensures increment { BaseIsSame }
{}

/// A text is that of one state.
pub fn state_texts_are_one()
    ensures { (text : Bytes) (s t : State) → IsStateText text s → IsStateText text t → s ≡ t }
{}

/// What names may name in a state that has a text are ids, of which no node and no commit stands twice (`targets`), and its names can be
/// kept over them (`names`).
pub fn saved_names_are_kept()
    ensures targets { (s : State) → IsState s → AreTargets (targets_in (kept_of s)) }
    ensures names { (s : State) → IsState s → AreNames (targets_in (kept_of s)) s.names }
{}

/// Over known revisions and objects that are the same up to their order and their links, a changeset is the same, and bytes bring the
/// same or are refused alike.
pub fn known_is_same()
    ensures turns { KnownTurns }
    ensures views { ViewsAreSame }
    ensures bundles { BundlesAreSame }
    ensures streams { StreamsAreSame }
{}

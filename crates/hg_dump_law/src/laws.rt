ghost use Rattle.std.specs.Prelude.{ℕ, List, take, drop};
ghost use Rattle.text_model.specs.Id.{Id};
ghost use Rattle.hg_model.specs.Revision.{Revision, known_after_all};
ghost use Rattle.view_model.specs.View.{ChangesetView};
ghost use Rattle.view_model.specs.Held.{AreChangesetsHeld};
ghost use Rattle.view_model.specs.Dump.{hg_increment};
ghost use Rattle.hg_dump_law.specs.Taken.{IsIncrement, KnowsOld, Brings, written_revisions};

/// Laws, which do nothing when they run. The bundle of the changesets from place `from` on is read over any revisions that hold what
/// the changesets before that place refer to and nothing that the written store doesn't hold: it brings the revisions that were written,
/// in the order of the bundle (`read`). What is known then holds what all the changesets refer to, and again nothing else (`known`), and
/// it says of each changeset what the written store says (`held`). All this where the parents of each revision belong to earlier
/// changesets, and the texts of changesets and the bundle are within their limits.
pub fn written_is_read()
    ensures read { (known base : List Revision) (nodes : List Id) (hs : List ChangesetView) (from : ℕ) → IsIncrement known base nodes hs from
        → Brings base (hg_increment known (take from hs) (drop from hs)) (written_revisions hs from) }
    ensures known { (known base : List Revision) (nodes : List Id) (hs : List ChangesetView) (from : ℕ) → IsIncrement known base nodes hs from
        → KnowsOld known (known_after_all base (written_revisions hs from)) hs }
    ensures held { (known base : List Revision) (nodes : List Id) (hs : List ChangesetView) (from : ℕ) → IsIncrement known base nodes hs from
        → AreChangesetsHeld (known_after_all base (written_revisions hs from)) nodes hs }
{}

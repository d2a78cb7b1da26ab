//! A law of the sizes of bundles: that of new changesets is no longer than that of all. No code.
#![tactic(auto)]

ghost use Rattle.std.specs.Prelude.{◌≤◌, List, [], ◌++◌, length};
ghost use Rattle.hg_model.specs.Revision.{Revision};
ghost use Rattle.view_model.specs.View.{ChangesetView};
ghost use Rattle.view_model.specs.Dump.{hg_increment};

/// The bundle of new changesets behind old ones is at most as long as that of all of them: it has some of the entries and some of the paths. Only the first
/// entry of a group may be longer, by the 12 bytes of a delta that empties its base, and then the group of all has old entries too.
pub fn increment_is_shorter()
    ensures { (known : List Revision) (old new : List ChangesetView) → length (hg_increment known old new) ≤ length (hg_increment known [] (old ++ new)) }
{}

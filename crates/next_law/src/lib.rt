//! Laws of a pull over a saved history: what it leaves has a text again. No code.
#![tactic(auto)]

ghost use Rattle.next_law.specs.Next.{IsLeft, IsLeftOfBytes, HasBlocks, HasDistinct, HasNoneOtherwise, HasNoneOther, HasParentsEarlier, HasRoom, ViewsAreRead, HasDump};

/// The blocks that a pull leaves have links in their form, at most as many as a block may have, and changesets that are no links.
pub fn blocks_are_left()
    ensures { IsLeft HasBlocks }
{}

/// No changeset stands twice in the blocks that a pull leaves, links among them, and no commit does.
pub fn members_are_distinct()
    ensures { IsLeft HasDistinct }
{}

/// No revision to which the changesets refer that a pull leaves is another one of the same node.
pub fn revisions_are_one()
    ensures { IsLeft HasNoneOtherwise }
{}

/// No object of the commits that a pull leaves is another one of the same id, where the text of the history and the input are made of bytes.
pub fn objects_are_one()
    ensures { IsLeftOfBytes HasNoneOther }
{}

/// The parents of each revision to which the changesets refer that a pull leaves belong to earlier changesets.
pub fn parents_are_earlier()
    ensures { IsLeft HasParentsEarlier }
{}

/// The dumps of what a pull leaves, its tags among them, and the number of its changesets are within their limits, and each commit has its
/// changeset.
pub fn limits_are_kept()
    ensures { IsLeft HasRoom }
{}

/// The dump of changesets that are views within their limits is read where nothing is known, if their parents are earlier, no revision is null
/// or another one of the same node, and the dump is within its limit.
pub fn views_are_read()
    ensures { ViewsAreRead }
{}

/// Where the changesets that a pull leaves are views within their limits, they have a dump that is read again.
pub fn dump_is_left()
    ensures { IsLeft HasDump }
{}

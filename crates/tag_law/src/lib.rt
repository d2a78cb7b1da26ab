//! Laws of the tags that a pull over a saved history leaves: they can be saved again. No code.
#![tactic(auto)]

ghost use Rattle.next_law.specs.Next.{IsLeft, IsLeftOfBytes};
ghost use Rattle.tag_law.specs.Tags.{HasTagsOnly, HasDistinctTags, HasLead, HasTargets, HasTagStream, HasTags};

/// All objects that a pull leaves as tags are tags.
pub fn tags_are_left()
    ensures { IsLeft HasTagsOnly }
{}

/// No tag that a pull leaves stands twice.
pub fn tags_are_distinct()
    ensures { IsLeft HasDistinctTags }
{}

/// Each tag that a pull leaves leads to a commit, over these tags alone.
pub fn tags_lead()
    ensures { IsLeft HasLead }
{}

/// The target of each tag that a pull leaves is a commit or a tag that it leaves.
pub fn targets_are_left()
    ensures { IsLeft HasTargets }
{}

/// The stream of the tags that a pull leaves is read over the objects of its commits, where the text of the history and the input are made of
/// bytes.
pub fn tags_are_read()
    ensures { IsLeftOfBytes HasTagStream }
{}

/// The tags that a pull leaves have their section, where the text of the history and the input are made of bytes.
pub fn tags_are_saved()
    ensures { IsLeftOfBytes HasTags }
{}

//! Laws of a pull over a saved history: the changesets and the commits that it leaves are views within their limits. No code.
#![tactic(auto)]

ghost use Rattle.next_law.specs.Next.{IsLeft, IsLeftOfBytes};
ghost use Rattle.view_law.specs.Views.{HasChangesetViews, HasChangesetsFit, HasCommitViews, HasCommitsFit};

/// The changesets that a pull leaves are views, links among them, where the text of the history and the input are made of bytes.
pub fn changesets_are_views()
    ensures { IsLeftOfBytes HasChangesetViews }
{}

/// The commits that a pull leaves are views, where the text of the history and the input are made of bytes.
pub fn commits_are_views()
    ensures { IsLeftOfBytes HasCommitViews }
{}

/// Each text of the changesets that a pull leaves is within its limit.
pub fn changesets_fit()
    ensures { IsLeft HasChangesetsFit }
{}

/// Each object of the commits that a pull leaves is within its limit, and so are the rows of their trees, where the text of the history and the
/// input are made of bytes.
pub fn commits_fit()
    ensures { IsLeftOfBytes HasCommitsFit }
{}

//! Laws of the stream of commits: that it is read where nothing is known, and that a pull leaves one. No code.
#![tactic(auto)]

ghost use Rattle.next_law.specs.Next.{IsLeftOfBytes};
ghost use Rattle.stream_law.specs.Stream.{OldCommitsFit, CommitsAreRead, HasStream};

/// Each commit of a saved state is within its limits: its stream was read, and a reading refuses a content past its limit.
pub fn old_commits_fit()
    ensures { OldCommitsFit }
{}

/// The stream of commits that are views within their limits is read where nothing is known, if no object is another one of the same id and
/// the stream is within its limit.
pub fn commits_are_read()
    ensures { CommitsAreRead }
{}

/// Where the commits that a pull leaves are views within their limits, they have a stream that is read again. The text of the history and
/// the input are made of bytes.
pub fn stream_is_left()
    ensures { IsLeftOfBytes HasStream }
{}

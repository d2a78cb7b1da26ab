//! What a pull writes is taken by the pull of the other side over the history that was there. No code.
#![tactic(auto)]

ghost use Rattle.increment_law.specs.Taken.{OutputGoesBack};

/// Where each block of a saved history is right, what an accepted pull over it writes is a pull of the other side that each saved history of its blocks takes, whatever
/// its tags, as long as that with the new blocks can be saved: the pull is accepted, refused for nothing, and brings just the new blocks and no tag.
pub fn outputs_return()
    ensures { OutputGoesBack }
{}

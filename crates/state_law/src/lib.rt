//! Laws of the state that a pull over a saved one leaves, or names that are set in it: it can be saved again, and its names come back. No code.
#![tactic(auto)]

ghost use Rattle.state_law.specs.Left.{TextFits, NamesStay, StateIsLeft};
ghost use Rattle.state_law.specs.Named.{SetIsLeft, NamesComeBack, NamesAreLeft};

/// The text of sections within the limits of a state, with names that can be kept, is within its own limit.
pub fn text_fits()
    ensures { TextFits }
{}

/// Names that can be kept can be kept behind more blocks and tags: they name the same.
pub fn names_stay()
    ensures { NamesStay }
{}

/// What a pull over a saved state leaves is a state: it has a text again. The text of the state before and the input are made of bytes.
pub fn state_is_left()
    ensures { StateIsLeft }
{}

/// A saved state with other names that can be kept has a text again.
pub fn set_is_left()
    ensures { SetIsLeft }
{}

/// What the command of either side writes of the names of a saved state leaves that state, where the same side sets it.
pub fn names_come_back()
    ensures { NamesComeBack }
{}

/// A pull over a saved state leaves its names, of which the command of either side writes what it wrote before.
pub fn names_are_left()
    ensures { NamesAreLeft }
{}

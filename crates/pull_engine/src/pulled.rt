use pair_state::State;
use rope::Rope;

/// What an accepted pull comes to.
#[derive(Drop)]
pub struct Pulled {
    /// The next state.
    pub state: State,
    /// How many blocks there were before.
    pub first_new: usize,
    /// What the new blocks bring to the other side.
    pub made: Rope,
    /// The text of the next state.
    pub text: Rope,
}

use git_batch::ObjectArrivals;
use hg_bundle::Arrivals;
use pair_state::State;
use rope::Rope;

/// What an accepted pull of a bundle comes to.
#[derive(Drop)]
pub struct HgPulled {
    /// The next state.
    pub state: State,
    /// The entries of the bundle, in its order.
    pub arrivals: Arrivals,
    /// How many blocks there were before.
    pub first_new: usize,
    /// What the new blocks bring to Git: a stream of objects.
    pub made: Rope,
}

/// What an accepted pull of a stream comes to.
#[derive(Drop)]
pub struct GitPulled {
    /// The next state.
    pub state: State,
    /// The objects of the stream, in its order.
    pub arrivals: ObjectArrivals,
    /// How many blocks there were before.
    pub first_new: usize,
    /// What the new blocks bring to Mercurial: a bundle.
    pub made: Rope,
}

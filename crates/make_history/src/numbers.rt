// The numbers that a changeset takes.
ghost use Rattle.std.specs.Prelude.{◌≡◌, ◌<◌};
ghost use Rattle.make_model.specs.Numbers as model;
ghost use Rattle.make_history.specs.Made.{numbers_value};

/// The numbers that one changeset takes, and the state of the generator behind them.
#[derive(Clone, Copy, Debug)]
pub struct Numbers {
    /// Below 8: which parents it has.
    pub parents: u64,
    /// Below 4: in which directory its file is.
    pub directory: u64,
    /// Below 8: which file it is.
    pub file: u64,
    /// Below 8: whether the file can be run.
    pub executable: u64,
    /// Below 4: whether the file is a copy.
    pub copied: u64,
    /// Below 4: who made it.
    pub user: u64,
    /// Below 4: in which time zone.
    pub zone: u64,
    /// Below 8: whether it names a branch.
    pub branch: u64,
    /// The state behind them.
    pub state: u64,
}

const FACTOR: u64 = 6364136223846793005;

const TERM: u64 = 1442695040888963407;

const CUT: u64 = 1 << 33;

// The state behind this one.
fn next_state(state: u64) -> u64
    ensures { result ≡ model.next_state state }
{
    state.wrapping_mul(FACTOR).wrapping_add(TERM)
}

// The number below the bound that a state gives.
fn number_of(bound: u64, state: u64) -> u64
    requires { 0 < bound }
    ensures value { result ≡ model.number_of_state bound state }
    ensures below { result < bound }
{
    state / CUT % bound
}

/// The numbers of the changeset before which the generator has this state.
#[tactic(auto, unfolding(make_model::specs::Numbers::numbers_from))]
pub fn numbers_from(state: u64) -> Numbers
    ensures value { numbers_value result ≡ model.numbers_from state }
    ensures directory { result.directory < 4 }
    ensures file { result.file < 8 }
{
    let x1 = next_state(state);
    let x2 = next_state(x1);
    let x3 = next_state(x2);
    let x4 = next_state(x3);
    let x5 = next_state(x4);
    let x6 = next_state(x5);
    let x7 = next_state(x6);
    let x8 = next_state(x7);
    Numbers {
        parents: number_of(8, x1),
        directory: number_of(4, x2),
        file: number_of(8, x3),
        executable: number_of(8, x4),
        copied: number_of(4, x5),
        user: number_of(4, x6),
        zone: number_of(4, x7),
        branch: number_of(8, x8),
        state: x8,
    }
}

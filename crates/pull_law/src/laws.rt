ghost use Rattle.std.specs.Prelude.{◌≡◌};
ghost use Rattle.text_model.specs.Text.{Bytes};
ghost use Rattle.text_model.specs.Fault.{Refusal};
ghost use Rattle.git_model.specs.Object.{AreObjects};
ghost use Rattle.partner_model.specs.Table.{IsTable};
ghost use Rattle.hg_store.specs.Known.{AreAdded};
ghost use Rattle.history_model.specs.Pull.{State, empty_state, PullHgMakes, PullHgRefuses, PullGitMakes, PullGitRefuses};
ghost use Rattle.pull_law.specs.Sound.{IsSoundState};

/// A law, which does nothing when it runs: a pull of a bundle over a sound state comes to one thing. Two outputs of one bundle
/// over one state are equal (`outputs`), and so are two refusals, with their name, their id and their place (`refusals`). No
/// bundle is both taken and refused (`not_both`). The empty state is sound (`empty`), and so is each state of revisions and
/// objects that stores hold and of blocks that are a table (`stored`).
pub fn bundle_outcome_is_one()
    ensures empty { IsSoundState empty_state }
    ensures stored { (s : State) → AreAdded s.revisions → AreObjects s.objects → IsTable s.blocks → IsSoundState s }
    ensures outputs { (s : State) (bundle a b : Bytes) → IsSoundState s → PullHgMakes s bundle a → PullHgMakes s bundle b → a ≡ b }
    ensures refusals { (s : State) (bundle : Bytes) (a b : Refusal) → IsSoundState s → PullHgRefuses s bundle a → PullHgRefuses s bundle b → a ≡ b }
    ensures not_both { (s : State) (bundle output : Bytes) (why : Refusal) → IsSoundState s → PullHgMakes s bundle output
        → PullHgRefuses s bundle why → ⊥ }
{}

/// A law, which does nothing when it runs: a pull of a stream over a sound state comes to one thing. Two outputs of one stream
/// over one state are equal (`outputs`), and so are two refusals, with their name, their id and their place (`refusals`). No
/// stream is both taken and refused (`not_both`).
pub fn stream_outcome_is_one()
    ensures outputs { (s : State) (stream a b : Bytes) → IsSoundState s → PullGitMakes s stream a → PullGitMakes s stream b → a ≡ b }
    ensures refusals { (s : State) (stream : Bytes) (a b : Refusal) → IsSoundState s → PullGitRefuses s stream a → PullGitRefuses s stream b → a ≡ b }
    ensures not_both { (s : State) (stream output : Bytes) (why : Refusal) → IsSoundState s → PullGitMakes s stream output
        → PullGitRefuses s stream why → ⊥ }
{}

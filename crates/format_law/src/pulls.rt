// What the definition of the outcomes says of pulls: that there is at most one.
ghost use Rattle.std.specs.Prelude.{◌≡◌};
ghost use Rattle.text_model.specs.Text.{Bytes};
ghost use Rattle.state_model.specs.Kept.{State, empty_state};
ghost use Rattle.state_model.specs.Saved.{IsState};
ghost use Rattle.command_model.specs.Command.{PullHg, PullGit, Outcome, ComesTo};

/// A law, which does nothing when it runs: over a state that has a text, a pull comes to at most one outcome. Two outcomes of one
/// bundle are equal (`bundles`), and so are two of one stream (`streams`): both are the same output with the same state that is
/// saved, or both are the same refusal, with its name, id and place. The empty state has a text (`empty`), so it holds where
/// nothing is saved too.
pub fn pulls_come_to_one()
    ensures empty { IsState empty_state }
    ensures bundles { (s : State) (bytes : Bytes) (a b : Outcome) → IsState s → ComesTo PullHg s bytes a → ComesTo PullHg s bytes b → a ≡ b }
    ensures streams { (s : State) (bytes : Bytes) (a b : Outcome) → IsState s → ComesTo PullGit s bytes a → ComesTo PullGit s bytes b → a ≡ b }
{}

// What the definition of the outcomes says of the formats of bundles and streams.
ghost use Rattle.std.specs.Prelude.{◌≡◌, [], Option};
ghost use Rattle.text_model.specs.Text.{Bytes, IsBytes};
ghost use Rattle.text_model.specs.Fault.{Refusal};
ghost use Rattle.hg_model.specs.Bundle.{ListsBundle, IsNoBundle};
ghost use Rattle.state_model.specs.Kept.{State};
ghost use Rattle.command_model.specs.Command.{ListHg, CheckHg, ListGit, CheckGit, Written, Refused, ComesTo};
ghost use Rattle.format_law.specs.BundleFormat.{CountsBundle, IsNoSoundBundle};
ghost use Rattle.format_law.specs.StreamFormat.{ListsStream, IsNoStream, CountsStream, IsNoSoundStream};

/// A law, which does nothing when it runs: what `list-hg` and `check-hg` come to over an input, in the words of the format of
/// bundles (HG10UN, changegroup version 1: Mercurial's help topics `internals.bundles` and `internals.changegroups`). An
/// output comes of bytes that are a bundle within the limits, and a refusal of bytes that are none.
pub fn outcomes_of_bundles()
    ensures listed { (s : State) (bytes output : Bytes) (saved : Option State) → IsBytes bytes → ComesTo ListHg s bytes (Written output saved) → ListsBundle bytes [] output }
    ensures unlisted { (s : State) (bytes : Bytes) (why : Refusal) → ComesTo ListHg s bytes (Refused why) → IsNoBundle bytes }
    ensures checked { (s : State) (bytes output : Bytes) (saved : Option State) → IsBytes bytes → ComesTo CheckHg s bytes (Written output saved) → CountsBundle bytes output }
    ensures unchecked { (s : State) (bytes : Bytes) (why : Refusal) → ComesTo CheckHg s bytes (Refused why) → IsNoSoundBundle bytes }
{}

/// A law, which does nothing when it runs: what `list-git` and `check-git` come to over an input, in the words of the format of
/// streams (manual page `git-cat-file`). An output comes of bytes that are a stream within the limits, and a refusal of bytes
/// that are none.
pub fn outcomes_of_streams()
    ensures listed { (s : State) (bytes output : Bytes) (saved : Option State) → ComesTo ListGit s bytes (Written output saved) → ListsStream bytes output }
    ensures unlisted { (s : State) (bytes : Bytes) (why : Refusal) → ComesTo ListGit s bytes (Refused why) → IsNoStream bytes }
    ensures checked { (s : State) (bytes output : Bytes) (saved : Option State) → ComesTo CheckGit s bytes (Written output saved) → CountsStream bytes output }
    ensures unchecked { (s : State) (bytes : Bytes) (why : Refusal) → ComesTo CheckGit s bytes (Refused why) → IsNoSoundStream bytes }
{}

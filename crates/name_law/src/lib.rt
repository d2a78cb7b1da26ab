//! Laws of the names of commits and tags: what a text sets can be kept, and comes back from the text of either side. No code.
#![tactic(auto)]

ghost use Rattle.std.specs.Prelude.{◌≡◌, List, length, Ok, ◌≤◌, ◌*◌};
ghost use Rattle.text_model.specs.Text.{Bytes};
ghost use Rattle.state_model.specs.Kept.{NameRow};
ghost use Rattle.state_model.specs.Text.{refs_text};
ghost use Rattle.state_model.specs.Names.{Targets, AreNames};
ghost use Rattle.name_model.specs.Targets.{AreTargets};
ghost use Rattle.name_model.specs.Reading.{refs_reading, names_reading, names_text};

/// What a text of refs sets can be kept (`refs`), and what a text of Mercurial's side sets (`names`): the limit holds, each ref is fit and
/// names a saved commit or a kept tag, and the refs rise.
pub fn names_are_kept()
    ensures refs { (t : Targets) (text : Bytes) (names : List NameRow) → refs_reading t text ≡ Ok names → AreNames t names }
    ensures names { (t : Targets) (text : Bytes) (names : List NameRow) → names_reading t text ≡ Ok names → AreNames t names }
{}

/// Names that can be kept come back from their text as Mercurial's side has it (`names`), and from that of Git's side (`refs`). So what a
/// text of refs sets comes back from Mercurial's side (`from_refs`), and what a text of Mercurial's side sets from Git's (`from_names`).
pub fn names_go_across()
    ensures names { (t : Targets) (names : List NameRow) → AreTargets t → AreNames t names → names_reading t (names_text t names) ≡ Ok names }
    ensures refs { (t : Targets) (names : List NameRow) → AreTargets t → AreNames t names → refs_reading t (refs_text names) ≡ Ok names }
    ensures from_refs { (t : Targets) (text : Bytes) (names : List NameRow) → AreTargets t → refs_reading t text ≡ Ok names → names_reading t (names_text t names) ≡ Ok names }
    ensures from_names { (t : Targets) (text : Bytes) (names : List NameRow) → AreTargets t → names_reading t text ≡ Ok names → refs_reading t (refs_text names) ≡ Ok names }
{}

/// Names that can be kept and have one text of Mercurial's side (`names`), or one text of refs (`refs`), are one list.
pub fn names_are_one()
    ensures names { (t : Targets) (xs ys : List NameRow) → AreTargets t → AreNames t xs → AreNames t ys → names_text t xs ≡ names_text t ys → xs ≡ ys }
    ensures refs { (t : Targets) (xs ys : List NameRow) → AreTargets t → AreNames t xs → AreNames t ys → refs_text xs ≡ refs_text ys → xs ≡ ys }
{}

/// A line of a text of refs has at most 4,138 bytes: 40 digits, a space, the ref and LF.
pub fn names_are_short()
    ensures { (t : Targets) (names : List NameRow) → AreTargets t → AreNames t names → length (refs_text names) ≤ 4138 * length names }
{}

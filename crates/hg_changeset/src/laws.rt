ghost use Rattle.std.specs.Prelude.{◌≡◌, false, None};
ghost use Rattle.text_model.specs.Text.{Bytes, IsBytes, has_byte};
ghost use Rattle.hg_model.specs.Changeset.{DateLine, IsDateLine, date_text, date_of, Changeset, IsChangeset, IsChangesetText, changeset_text, changeset_fault};

/// Laws, which do nothing when they run. A text is that of one changeset at most, and it is that
/// of one exactly where it has no fault.
pub fn reads_exactly()
    ensures one { (text : Bytes) (x y : Changeset) → IsChangesetText text x → IsChangesetText text y → x ≡ y }
    ensures no_fault { (text : Bytes) (x : Changeset) → IsChangesetText text x → changeset_fault text ≡ None }
    ensures some { (text : Bytes) → IsBytes text → changeset_fault text ≡ None → (x : Changeset) × IsChangesetText text x }
    ensures again { (x y : Changeset) → IsChangeset x → IsChangesetText (changeset_text x) y → y ≡ x }
{}

/// Laws, which do nothing when they run. `date_of` gives the one date line of a text.
pub fn date_laws()
    ensures is { (text : Bytes) → IsBytes text → has_byte 10 text ≡ false → IsDateLine (date_of text) × (date_text (date_of text) ≡ text) }
    ensures one { (date : DateLine) → IsDateLine date → date_of (date_text date) ≡ date }
{}

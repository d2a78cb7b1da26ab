ghost use Rattle.std.specs.Prelude.{◌≡◌, Option, List, ℕ, false};
ghost use Rattle.hg_model.specs.FileText.{IsFileText, lacks_second_mark};

/// A text is that of one pair of metadata and body at most, and the text of a pair has both marks or none.
pub fn splits_exactly()
    ensures one { (text : List ℕ) (meta other : Option (List ℕ)) (body rest : List ℕ)
        → IsFileText text meta body → IsFileText text other rest → (meta ≡ other) × (body ≡ rest) }
    ensures no_fault { (text : List ℕ) (meta : Option (List ℕ)) (body : List ℕ)
        → IsFileText text meta body → lacks_second_mark text ≡ false }
{}

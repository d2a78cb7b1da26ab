//! Laws of what this crate reads and writes. These functions do nothing when they run.
ghost use Rattle.std.specs.Prelude.{◌≡◌, ◌<◌, ◌^◌, ◌++◌, List, length};
ghost use Rattle.text_model.specs.Lists.{Each};
ghost use Rattle.text_model.specs.Text.{Bytes};
ghost use Rattle.state_model.specs.Text.{sized};
ghost use Rattle.state_part.specs.declared.pairs.IdPair as model;
ghost use Rattle.state_part.specs.Pairs.{IsPair, map_section};

/// Bytes begin with one section of a word at most, and with one section of pairs. So what is written is what is read.
pub fn section_laws()
    ensures text { (word a b x y : Bytes) → length a < 2 ^ 64 → length b < 2 ^ 64 → sized word a ++ x ≡ sized word b ++ y → (a ≡ b) × (x ≡ y) }
    ensures pairs { (a b : List model.IdPair) (x y : Bytes) → Each IsPair a → Each IsPair b → length a < 2 ^ 64 → length b < 2 ^ 64
        → map_section a ++ x ≡ map_section b ++ y → (a ≡ b) × (x ≡ y) }
{}

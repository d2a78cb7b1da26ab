//! Laws of what this crate reads and writes.
ghost use Rattle.std.specs.Prelude.{◌≡◌, ◌+◌, ◌≤◌, ℕ, List, ◌++◌, length, map, None, Ok};
ghost use Rattle.text_model.specs.Lists.{Each};
ghost use Rattle.text_model.specs.Text.{Bytes};
ghost use Rattle.text_model.specs.Id.{ObjectKind};
ghost use Rattle.text_model.specs.Fault.{input_limit};
ghost use Rattle.git_model.specs.Object.{Object};
ghost use Rattle.git_model.specs.Stream.{IsFit, IsFitStream, IsChecked, Found, Placed, object_text, object_reading, ReadsAll, stream_text, stream_framing, stream_reading, count_of_kind};
ghost use Rattle.git_batch.specs.Arrivals.{arrival_of, count_of, AddsAll, BringsAll};

/// What is written of an object within its limit is read as this object, wherever it stands in an input within its
/// limit, and what is read as an object is what is written of it. So an input is read whole exactly where it is a
/// stream within the limits. This function does nothing when it runs.
pub fn stream_laws()
    ensures object { (at : ℕ) (o : Object) (rest : Bytes) → IsFit o → at + length (object_text o) ≤ input_limit
        → object_reading at (object_text o ++ rest) ≡ Found o }
    ensures taken { (at : ℕ) (bytes : Bytes) (o : Object) → object_reading at bytes ≡ Found o
        → (rest : Bytes) × (bytes ≡ object_text o ++ rest) × IsFit o × (at + length (object_text o) ≤ input_limit) }
    ensures stream { (objects : List Object) → Each IsFit objects → length (stream_text objects) ≤ input_limit
        → ReadsAll (stream_framing (stream_text objects)) objects }
    ensures whole { (bytes : Bytes) → (stream_framing bytes).bad ≡ None
        → IsFitStream bytes (map (λ p. p.object) (stream_framing bytes).objects) }
{}

/// A stream within the limits is read whole exactly where each of its objects has the id of its kind and content, and
/// none is refused behind those before it. The arrivals count as the objects do. This function does nothing when it runs.
pub fn stream_reading_laws()
    ensures all { (known objects : List Object) → Each IsFit objects → length (stream_text objects) ≤ input_limit
        → IsChecked objects → AddsAll known objects → BringsAll known (stream_text objects) objects }
    ensures only { (known : List Object) (bytes : Bytes) (placed : List Placed) → stream_reading known bytes ≡ Ok placed
        → IsFitStream bytes (map (λ p. p.object) placed) × IsChecked (map (λ p. p.object) placed) × AddsAll known (map (λ p. p.object) placed) }
    ensures counts { (kind : ObjectKind) (placed : List Placed) → count_of kind (map arrival_of placed) ≡ count_of_kind kind placed }
{}

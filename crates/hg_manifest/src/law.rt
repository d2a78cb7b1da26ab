ghost use Rattle.std.specs.Prelude.{◌≡◌, None, List, ℕ};
ghost use Rattle.text_model.specs.Text.{IsBytes};
ghost use Rattle.hg_model.specs.Manifest.{ManifestEntry, IsManifestText, manifest_fault};

/// A law, which does nothing when it runs. A text is that of one manifest at most, and it is that of one exactly where it has no fault.
pub fn reads_exactly()
    ensures one { (text : List ℕ) (entries others : List ManifestEntry)
        → IsManifestText text entries → IsManifestText text others → entries ≡ others }
    ensures no_fault { (text : List ℕ) (entries : List ManifestEntry)
        → IsManifestText text entries → manifest_fault text ≡ None }
    ensures some { (text : List ℕ) → IsBytes text → manifest_fault text ≡ None
        → (entries : List ManifestEntry) × IsManifestText text entries }
{}

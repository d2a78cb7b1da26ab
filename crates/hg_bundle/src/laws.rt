// What the definition by which a listing is computed says of the format.
ghost use Rattle.std.specs.Prelude.{◌≡◌, None};
ghost use Rattle.text_model.specs.Text.{Bytes, IsBytes};
ghost use Rattle.hg_model.specs.Bundle.{Bundle, IsBundle, IsWithinLimits, bundle_framing, bundle_lines, listing, listing_fault};

/// A law, which does nothing when it runs: each bundle within the limits is listed without a refusal, with its lines,
/// and bytes that are listed without a refusal are such a bundle.
///
/// A bundle is that of Mercurial's help topics `internals.bundles` and `internals.changegroups` (HG10UN, changegroup
/// version 1).
pub fn bundles_are_listed()
    ensures complete { (bytes : Bytes) (b : Bundle) → IsBundle bytes b → IsWithinLimits bytes b
        → (listing_fault bytes ≡ None) × (listing (bundle_framing bytes).items ≡ bundle_lines b) }
    ensures sound { (bytes : Bytes) → IsBytes bytes → listing_fault bytes ≡ None
        → (b : Bundle) × IsBundle bytes b × IsWithinLimits bytes b }
{}

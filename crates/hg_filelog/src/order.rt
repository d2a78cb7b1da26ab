// The order in which parents without one are kept.
ghost use Rattle.std.specs.Prelude.{◌≡◌};
ghost use Rattle.std.specs.Option.{option_copied};
ghost use Rattle.hg_model.specs.FileText.{manifest_order, names_copy};
ghost use Rattle.hg_model.specs.FileText as file_text;

use crate::copy::has_copy;
use bridge_text::Id;

/// Two parents in canonical order, that of manifests: a null one last, else rising.
pub fn canonical_pair(p: Id, q: Id) -> (Id, Id)
    ensures { result ≡ manifest_order p q }
{
    if p.is_null() {
        (q, p)
    } else if q.is_null() {
        (p, q)
    } else if q.cmp(&p).is_lt() {
        (q, p)
    } else {
        (p, q)
    }
}

/// The two parents of a file revision in the order in which Mercurial's filelog keeps them: that of manifests, and a null
/// one first where a line of the metadata begins with `copy: `.
pub fn file_order(meta: Option<&[u8]>, p: Id, q: Id) -> (Id, Id)
    ensures { result ≡ file_text.file_order (option_copied meta.entry) p q }
{
    let (first, second) = canonical_pair(p, q);
    if names_copy(meta) && (p.is_null() || q.is_null()) {
        (second, first)
    } else {
        (first, second)
    }
}

fn names_copy(meta: Option<&[u8]>) -> bool
    ensures { result ≡ names_copy (option_copied meta.entry) }
{
    meta.is_some_and(has_copy)
}

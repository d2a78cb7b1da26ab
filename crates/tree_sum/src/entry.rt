// The entries of a tree that are no directories.
ghost use Rattle.std.specs.Prelude.{◌≡◌, ◌≤◌, ◌||◌, ◌&&◌, not, true, false, length, MatchOption, IfSome, bytes_eq};
ghost use Rattle.text_model.specs.Id.{blob};
ghost use Rattle.git_model.specs.Tree.{is_blob_mode};
ghost use Rattle.git_model.specs.Unfold.{is_kind_there};
ghost use Rattle.git_model.specs.Object.{object_at};
ghost use Rattle.tree_sum.specs.Numbers.{none_below, under, both, IsWithin};
ghost use Rattle.tree_sum.specs.Sums.{is_file_there};

use crate::sum::Sum;
use bridge_text::{Id, Kind};
use git_object::{Objects, TreeEntry};
use git_store::GitStore;

/// The sum with a file or the commit of another repository; `None` exactly where its blob isn't there or a limit is passed.
/// The file of the other entry is there.
pub fn with_file(
    sum: &Sum,
    store: &GitStore,
    entry: &TreeEntry,
    other: Option<&TreeEntry>,
    levels: usize,
) -> Option<Sum>
    requires other { IfSome other (λ o. is_file_there store.now o.now ≡ true) }
    requires within { IsWithin levels sum.now }
    requires name { length entry.now.name ≤ 4096 }
    requires levels { levels ≤ 256 }
    ensures { MatchOption result ((is_file_there store.now entry.now ≡ true) × IsWithin levels (both sum.now (under (length entry.now.name) none_below)) → ⊥)
        (λ s. (is_file_there store.now entry.now ≡ true) × (s ≡ both sum.now (under (length entry.now.name) none_below)) × IsWithin levels s) }
{
    if !has_object(store, entry, other) {
        return None;
    }
    sum.with_entry(entry.name().len(), &Sum::nothing(), levels)
}

/// Whether the object of an entry that is no directory is there; none is asked for the commit of another repository. A blob
/// that the other entry names is there, and isn't looked up.
fn has_object(store: &GitStore, entry: &TreeEntry, other: Option<&TreeEntry>) -> bool
    requires other { IfSome other (λ o. is_file_there store.now o.now ≡ true) }
    ensures { result ≡ is_file_there store.now entry.now }
{
    !entry.mode().is_blob() || names_blob(other, entry.id()) || has_blob(store, entry.id())
}

/// Whether the entry is that of the blob with this id.
pub fn names_blob(entry: Option<&TreeEntry>, id: &Id) -> bool
    ensures { MatchOption entry.entry (result ≡ false) (λ e. result ≡ (is_blob_mode e.now.mode && bytes_eq e.now.id id.now)) }
{
    let Some(entry) = entry else {
        return false;
    };
    entry.mode().is_blob() && entry.id() == id
}

/// Whether a blob is there.
fn has_blob(store: &GitStore, id: &Id) -> bool
    ensures { result ≡ is_kind_there blob (object_at store.now id.now) }
{
    match store.content(id) {
        Some((Kind::Blob, _)) => true,
        Some((Kind::Tree | Kind::Commit | Kind::Tag, _)) => false,
        None => false,
    }
}

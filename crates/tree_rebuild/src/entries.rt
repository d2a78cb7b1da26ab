// The entries of a directory, beside those of its old tree: their text is begun at the first that differs.
ghost use Rattle.std.specs.Prelude.{◌≡◌, ◌≤◌, ◌+◌, ◌++◌, ◌∷◌, ◌&&◌, ◌==◌, [], length, take, drop, true, false, not, OnOk, IfOk, MatchOption, IsTrue, bytes_eq, ◌↔◌};
ghost use Rattle.text_model.specs.Id.{tree, object_id};
ghost use Rattle.git_model.specs.Tree.{Directory, is_directory, tree_entry_text, tree_text};
ghost use Rattle.git_model.specs.Object.{object_of};
ghost use Rattle.git_object.specs.Values.{mode_value};
ghost use Rattle.tree_rebuild.specs.Entries.{met_text, row_named, entry_row, IsNext, IsDirectoryNext, IsRowNext};

use bridge_text::{Id, NoMemory};
use git_object::{Mode, Objects, TreeEntry};
use std::alloc::Global;
use tree_shape::{FileRow, TreeList, is_leaf, put_entry, put_tree};

/// The entries of a directory that were met. As long as they are the first ones of the old tree, they are counted alone.
#[derive(Drop)]
pub struct Entries {
    /// How many of the old tree's entries were met.
    pub place: usize,
    /// Whether one of the directory's entries isn't the old tree's.
    pub differs: bool,
    /// Their text, once one differs.
    pub text: Vec<u8>,
}

#[tactic(auto, unfolding(git_model::specs::Tree::tree_text))]
fn put_old(out: &mut Vec<u8>, entries: &[TreeEntry]) -> Result<(), NoMemory>
    ensures { OnOk result (out.new.items ≡ out.old.items ++ tree_text entries.now) }
{
    for entry in entries {
        put_entry(out, entry.mode(), entry.name(), entry.id())?;
    }
    Ok(())
}

/// Whether an entry is the directory of this name.
pub fn is_directory_named(entry: &TreeEntry, name: &[u8]) -> bool
    ensures { result ≡ (is_directory entry.now.mode && bytes_eq entry.now.name name.now) }
{
    entry.mode().is_directory() && entry.name() == name
}

fn is_entry_of(entry: &TreeEntry, name: &[u8], row: &FileRow) -> bool
    ensures { IsTrue result ↔ row_named name.now row.now ≡ entry_row entry.now }
{
    entry.name() == name && entry.mode() == row.mode() && entry.id() == row.blob()
}

/// Whether the entry at a place is the directory of this name.
pub fn is_directory_at(old: &[TreeEntry], place: usize, name: &[u8]) -> bool
    ensures { IsTrue result ↔ IsDirectoryNext name.now (drop place old.now) }
{
    match old.get(place) {
        Some(entry) => is_directory_named(entry, name),
        None => false,
    }
}

/// Whether the entry at a place is a row of this one name.
fn is_row_at<G: Objects>(
    store: &G,
    old: &[TreeEntry],
    place: usize,
    name: &[u8],
    row: &FileRow,
) -> bool
    ensures { IsTrue result ↔ IsRowNext (G.objects store.now) (row_named name.now row.now) (drop place old.now) }
{
    match old.get(place) {
        Some(entry) => is_entry_of(entry, name, row) && is_leaf(store, entry),
        None => false,
    }
}

impl Entries {
    /// None yet.
    pub fn new(alloc: Global) -> Entries
        ensures place { result.place ≡ 0 }
        ensures differs { result.differs ≡ false }
        ensures text { result.text.items ≡ [] }
    {
        Entries {
            place: 0,
            differs: false,
            text: Vec::new(alloc),
        }
    }

    /// Begins the text with the old tree's entries that were met.
    fn begin(&mut self, old: &[TreeEntry]) -> Result<(), NoMemory>
        requires { self.old.place ≤ length old.now }
        ensures text { OnOk result (self.new.text.items ≡ met_text self.old.differs self.old.place self.old.text.items old.now) }
        ensures differs { OnOk result (self.new.differs ≡ true) }
        ensures place { OnOk result (self.new.place ≡ self.old.place) }
    {
        if self.differs {
            return Ok(());
        }
        put_old(&mut self.text, old.split_at(self.place).0)?;
        self.differs = true;
        Ok(())
    }

    /// Puts an entry behind the others, which may be the old tree's next one.
    fn put(
        &mut self,
        old: &[TreeEntry],
        is_next: bool,
        mode: Mode,
        name: &[u8],
        id: &Id,
    ) -> Result<(), NoMemory>
        requires within { self.old.place ≤ length old.now }
        requires same { IsTrue is_next → self.old.differs ≡ false }
        requires next { IsTrue is_next → IsNext (record { mode = mode_value mode; name = name.now; id = id.now }) (drop self.old.place old.now) }
        ensures text { OnOk result (met_text self.new.differs self.new.place self.new.text.items old.now ≡ met_text self.old.differs self.old.place self.old.text.items old.now ++ tree_entry_text (record { mode = mode_value mode; name = name.now; id = id.now })) }
        ensures differs { OnOk result (self.new.differs ≡ not is_next) }
        ensures place { OnOk result (IsTrue is_next → self.new.place ≡ self.old.place + 1) }
        ensures within { OnOk result (self.new.place ≤ length old.now) }
    {
        if is_next {
            self.place += 1;
            return Ok(());
        }
        self.begin(old)?;
        put_entry(&mut self.text, mode, name, id)?;
        if self.place < old.len() {
            self.place += 1;
        }
        Ok(())
    }

    /// Puts the entry of a row of this one name.
    pub fn put_leaf<G: Objects>(
        &mut self,
        store: &G,
        old: &[TreeEntry],
        name: &[u8],
        row: &FileRow,
    ) -> Result<(), NoMemory>
        requires { self.old.place ≤ length old.now }
        ensures text { OnOk result (met_text self.new.differs self.new.place self.new.text.items old.now ≡ met_text self.old.differs self.old.place self.old.text.items old.now ++ tree_entry_text (record { mode = row.now.mode; name = name.now; id = row.now.id })) }
        ensures within { OnOk result (self.new.place ≤ length old.now) }
        ensures same { OnOk result (self.new.differs ≡ false → (self.old.differs ≡ false) × (self.new.place ≡ self.old.place + 1) × IsRowNext (G.objects store.now) (row_named name.now row.now) (drop self.old.place old.now)) }
        ensures other { OnOk result (self.new.differs ≡ true → self.old.differs ≡ false → IsRowNext (G.objects store.now) (row_named name.now row.now) (drop self.old.place old.now) → ⊥) }
    {
        let is_next = !self.differs && is_row_at(store, old, self.place, name, row);
        self.put(old, is_next, row.mode(), name, row.blob())
    }

    /// Puts the entry of a directory, which may be kept from the old tree.
    pub fn put_directory(
        &mut self,
        old: &[TreeEntry],
        is_kept: bool,
        name: &[u8],
        id: &Id,
    ) -> Result<(), NoMemory>
        requires within { self.old.place ≤ length old.now }
        requires kept { IsTrue is_kept → IsDirectoryNext name.now (drop self.old.place old.now) → IsNext (record { mode = Directory; name = name.now; id = id.now }) (drop self.old.place old.now) }
        ensures text { OnOk result (met_text self.new.differs self.new.place self.new.text.items old.now ≡ met_text self.old.differs self.old.place self.old.text.items old.now ++ tree_entry_text (record { mode = Directory; name = name.now; id = id.now })) }
        ensures within { OnOk result (self.new.place ≤ length old.now) }
        ensures same { OnOk result (self.new.differs ≡ false → (self.old.differs ≡ false) × (self.new.place ≡ self.old.place + 1) × IsDirectoryNext name.now (drop self.old.place old.now) × IsTrue is_kept) }
        ensures other { OnOk result (self.new.differs ≡ true → self.old.differs ≡ false → IsDirectoryNext name.now (drop self.old.place old.now) → IsTrue is_kept → ⊥) }
    {
        let is_next = is_kept && !self.differs && is_directory_at(old, self.place, name);
        self.put(old, is_next, Mode::Dir, name, id)
    }

    /// Makes the tree of the entries, unless they are all of the old tree's.
    pub fn finish(mut self, old: &[TreeEntry], made: &mut TreeList) -> Result<Option<Id>, NoMemory>
        requires { self.place ≤ length old.now }
        ensures tree { IfOk result (λ id. MatchOption id ((not self.differs && (self.place == length old.now)) ≡ true) (λ id. ((not self.differs && (self.place == length old.now)) ≡ false) × (id ≡ object_id tree (met_text self.differs self.place self.text.items old.now)))) }
        ensures made { IfOk result (λ id. MatchOption id (made.new ≡ made.old) (λ _. made.new ≡ made.old ++ object_of tree (met_text self.differs self.place self.text.items old.now) ∷ [])) }
    {
        if !self.differs && self.place == old.len() {
            return Ok(None);
        }
        self.begin(old)?;
        Ok(Some(put_tree(made, self.text)?))
    }
}

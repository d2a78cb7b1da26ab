ghost use Rattle.std.specs.Prelude.{◌≡◌, ◌==◌, ◌<◌, ◌&&◌, not, ◌++◌, [], ◌∷◌, length, slice_get, None, Some, Ok, IsTrue, IfOk, IfErr, OnOk, OnErr};
ghost use Rattle.std.specs.Io.{StartsWith};
ghost use Rattle.std.specs.List.{list_any};
ghost use Rattle.text_model.specs.Lists.{rises};
ghost use Rattle.git_model.specs.Tree.{IsTree, IsTreeText, is_entry_below, is_octal, judged, rises_behind, has_name, is_file_named, sort_name, tree_text, tree_fault, tree_entries};
ghost use Rattle.text_model.specs.Text.{is_below};
ghost use Rattle.git_object.specs.Values.{mode_value, raw_entry};
ghost use Rattle.git_object.specs.Faults.{IsTreeFault, fault_at};

use crate::entry::{RawEntry, TreeEntry, first_entry, is_octal, put_entry};
use crate::fault::TreeReadFault;
use crate::mode::{Mode, is_directory_text};
use crate::order::OrderName;
use bridge_text::{Bytes, NoMemory, fit_name};
use std::alloc::Global;
use std::marker::Model;

/// The entries of a directory, in their order: that of their names, where the name of a
/// directory has a slash at its end. No two have one name.
#[derive(Debug, Drop)]
pub struct Tree {
    entries: Vec<TreeEntry>,
}

impl Model for Tree {
    ghost use Rattle.std.specs.Prelude.{List};
    ghost use Rattle.git_model.specs.Tree as model;

    ghost Value = { List model.TreeEntry };

    ghost view = { λ t. t.entries.items };

    ghost invariant = { λ t. model.IsTree t.entries.items };
}

impl Tree {
    /// The tree without entries.
    pub fn new(alloc: Global) -> Tree
        ensures { result ≡ [] }
    {
        Tree {
            entries: Vec::new(alloc),
        }
    }

    /// The tree whose content this is, as `git cat-file tree` prints it: for each entry its mode
    /// in octal digits, a space, its name, a NUL and the 20 bytes of its id.
    pub fn read(alloc: Global, content: &[u8]) -> Result<Tree, TreeReadFault>
        ensures ok { IfOk result (IsTreeText content.now) }
        ensures fits { OnOk result (tree_fault content.now ≡ None) }
        ensures entries { IfOk result (λ tree. tree ≡ tree_entries content.now) }
        ensures fault { IfErr result (IsTreeFault (tree_fault content.now)) }
    {
        let mut tree = Tree::new(alloc);
        let mut rest = content;
        'entries: while !rest.is_empty() {
            let place = content.len() - rest.len();
            let Some((raw, after)) = first_entry(rest) else {
                return Err(TreeReadFault::Shape(place));
            };
            let mode = tree.judge(&raw, place)?;
            let name = Bytes::of(alloc, raw.name)?;
            tree.push(TreeEntry {
                mode,
                name,
                id: raw.id,
            })?;
            rest = after;
        }
        Ok(tree)
    }

    /// Puts an entry at the end, which stands above the others and has a name of its own. If
    /// memory runs out, the tree is as it was.
    pub fn push(&mut self, entry: TreeEntry) -> Result<(), NoMemory>
        requires { IsTree (self.old ++ entry ∷ []) }
        ensures ok { OnOk result (self.new ≡ self.old ++ entry ∷ []) }
        ensures err { OnErr result (self.new ≡ self.old) }
    {
        Ok(self.entries.push(entry)?)
    }

    /// How many entries there are.
    pub fn len(&self) -> usize
        ensures { result ≡ length self.now }
    {
        self.entries.len()
    }

    /// Whether there are no entries.
    pub fn is_empty(&self) -> bool
        ensures { result ≡ (length self.now == 0) }
    {
        self.entries.is_empty()
    }

    /// The entry at place `i`, which is below the length.
    pub fn at(&self, i: usize) -> &TreeEntry
        requires { i < length self.now }
        ensures { slice_get self.now i ≡ Some result.now }
    {
        &self.entries[i]
    }

    /// The entries.
    pub fn entries(&self) -> &[TreeEntry]
        ensures entries { result.now ≡ self.now }
        ensures tree { IsTree self.now }
    {
        self.entries.as_slice()
    }

    /// Appends the content of the tree, which `read` gives back. If memory runs out, `out` is as
    /// it was.
    pub fn write_into(&self, out: &mut Vec<u8>) -> Result<(), NoMemory>
        ensures ok { OnOk result (out.new.items ≡ out.old.items ++ tree_text self.now) }
        ensures err { OnErr result (out.new.items ≡ out.old.items) }
    {
        let start = out.len();
        let result = put_entries(out, self.entries.as_slice());
        if result.is_err() {
            out.truncate(start);
        }
        result
    }

    /// The mode of an entry that may stand behind those of this tree. The offset of the entry is
    /// for the fault.
    fn judge(&self, entry: &RawEntry<'_>, place: usize) -> Result<Mode, TreeReadFault>
        ensures ok { IfOk result (λ mode. judged self.now (raw_entry entry.now) ≡ Ok (record { mode = mode_value mode; name = entry.now.name.now; id = entry.now.id })) }
        ensures fault { IfErr result (IsTreeFault (fault_at place (judged self.now (raw_entry entry.now)))) }
    {
        if !has_shape(self.entries.as_slice(), entry) {
            return Err(TreeReadFault::Shape(place));
        }
        let Some(mode) = Mode::of_text(entry.mode) else {
            return Err(TreeReadFault::ModeOut(place));
        };
        if !fit_name(entry.name) {
            return Err(TreeReadFault::NameUnfit(place));
        }
        Ok(mode)
    }
}

#[tactic(auto, unfolding(git_model::specs::Tree::tree_text))]
fn put_entries(out: &mut Vec<u8>, entries: &[TreeEntry]) -> Result<(), NoMemory>
    ensures ok { OnOk result (out.new.items ≡ out.old.items ++ tree_text entries.now) }
    ensures front { StartsWith out.new.items out.old.items }
{
    for entry in entries {
        put_entry(out, entry)?;
    }
    Ok(())
}

/// Whether an entry has octal digits for its mode, stands above these and has a name of its own.
fn has_shape(entries: &[TreeEntry], entry: &RawEntry<'_>) -> bool
    requires { IsTrue (rises is_entry_below entries.now) }
    ensures { result ≡ (is_octal entry.now.mode.now && rises_behind entries.now (raw_entry entry.now) && not (has_name entries.now entry.now.name.now)) }
{
    is_octal(entry.mode) && rises_behind(entries, entry) && !has_name(entries, entry)
}

/// Whether one of these entries has the name of an entry that stands above them. It can only be a
/// file's, where the entry is a directory's.
fn has_name(entries: &[TreeEntry], entry: &RawEntry<'_>) -> bool
    requires rising { IsTrue (rises is_entry_below entries.now) }
    requires above { IsTrue (rises_behind entries.now (raw_entry entry.now)) }
    ensures { result ≡ has_name entries.now entry.now.name.now }
{
    is_directory_text(entry.mode) && has_file(entries, entry.name)
}

/// Whether an entry stands above the last of these, where there is one.
fn rises_behind(entries: &[TreeEntry], entry: &RawEntry<'_>) -> bool
    ensures { result ≡ rises_behind entries.now (raw_entry entry.now) }
{
    match entries.last() {
        Some(last) => last.order_name().is_below(&entry.order_name()),
        None => true,
    }
}

/// Whether one of these entries is a file of this name.
fn has_file(entries: &[TreeEntry], name: &[u8]) -> bool
    requires { IsTrue (rises is_entry_below entries.now) }
    ensures { result ≡ list_any (is_file_named name.now) entries.now }
{
    let place = entries.partition_point(
        |entry: &TreeEntry| -> bool
            ensures { result ≡ is_below (sort_name entry.now.mode entry.now.name) name.entry.now }
        { is_below_file(entry, name) },
    );
    if place < entries.len() {
        is_file_named(&entries[place], name)
    } else {
        false
    }
}

fn is_file_named(entry: &TreeEntry, name: &[u8]) -> bool
    ensures { result ≡ is_file_named name.now entry.now }
{
    !entry.mode.is_directory() && entry.name.as_slice() == name
}

/// Whether an entry stands before a file of this name.
fn is_below_file(entry: &TreeEntry, name: &[u8]) -> bool
    ensures { result ≡ is_below (sort_name entry.now.mode entry.now.name) name.now }
{
    let file = OrderName {
        name,
        is_directory: false,
    };
    entry.order_name().is_below(&file)
}

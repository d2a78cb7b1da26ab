// An entry of a group.
ghost use Rattle.std.specs.Prelude.{◌≡◌, ◌+◌, ◌++◌, ◌<◌, ◌≤◌, ◌^◌, length, IsTrue, Some, IfOk, OnOk};
ghost use Rattle.std.specs.Io.{StartsWith};
ghost use Rattle.byteorder.specs.Endian.{big_bytes};
ghost use Rattle.text_model.specs.Id.{IsId};
ghost use Rattle.hg_model.specs.Revision.{Revision, revision_of, knows};
ghost use Rattle.hg_model.specs.Delta.{whole_delta};
ghost use Rattle.hg_store.specs.Groups.{group_value};
ghost use Rattle.hg_store.specs.Known.{AreAdded};
ghost use Rattle.hg_dump.specs.Written.{IsOf, AreParentsOf, entry_over, entry_chunk};

use crate::references::Reference;
use bridge_text::{Id, NoMemory};
use byteorder::{BigEndian, ByteOrder};
use hg_hunk::replace_into;
use hg_store::{Group, HgStore};
use rope::Rope;

/// How many bytes stand before a delta: the length of the chunk, and four ids.
pub const HEADER_LEN: usize = 84;

/// How many bytes stand before the text in a delta that replaces a whole base.
const HUNK_HEADER_LEN: usize = 12;

/// Appends the entry of a revision, over a base of this length, and says how long the revision's text is.
pub fn put_entry(
    out: &mut Rope,
    store: &HgStore,
    group: Group<'_>,
    reference: &Reference,
    base_len: u32,
) -> Result<u32, NoMemory>
    requires { (r : Revision) × IsOf store.now (group_value group) reference.now r }
    ensures entry { OnOk result ((r : Revision) → IsOf store.now (group_value group.entry) reference.now r → out.new ≡ out.old ++ entry_chunk (entry_over base_len r)) }
    ensures front { StartsWith out.new out.old }
    ensures len { IfOk result (λ len. (r : Revision) → IsOf store.now (group_value group.entry) reference.now r → len ≡ length r.text) }
{
    let text = store.shared_text(group, &reference.node).unwrap();
    let (p, q) = parents(store, group, &reference.node);
    let size = delta_len(base_len, text.as_slice());
    put_header(out, size, reference, &p, &q)?;
    replace_into(out, base_len, text)?;
    Ok(text.len() as u32)
}

/// How many bytes the entry of a revision has, over a base of this length, and how long the revision's text is.
pub fn entry_len(
    store: &HgStore,
    group: Group<'_>,
    reference: Reference,
    base_len: u32,
) -> (u64, u32)
    requires { (r : Revision) × IsOf store.now (group_value group) reference r }
    ensures entry { (r : Revision) → IsOf store.now (group_value group.entry) reference r → result.0 ≡ length (entry_chunk (entry_over base_len r)) }
    ensures len { (r : Revision) → IsOf store.now (group_value group.entry) reference r → result.1 ≡ length r.text }
{
    let text = store.revision_text(group, &reference.node).unwrap();
    let len = HEADER_LEN + delta_len(base_len, text);
    (len as u64, text.len() as u32)
}

/// The parents of a known revision in the order in which they are written.
pub fn parents(store: &HgStore, group: Group<'_>, node: &Id) -> (Id, Id)
    requires { IsTrue (knows store.now (group_value group) node.now) }
    ensures parents { (r : Revision) → revision_of store.now (group_value group.entry) node.now ≡ Some r → AreParentsOf store.now (group_value group.entry) node.now r result }
    ensures known { AreAdded store.now }
{
    match group {
        Group::Changesets => store.parents_of(node).unwrap(),
        Group::Manifests => store.manifest_parents(node).unwrap(),
        Group::FilesAt(path) => store.file_parents(path, node).unwrap(),
    }
}

/// How long the delta is that replaces a base of this length by the text.
#[tactic(auto, unfolding(hg_model::specs::Delta::number32))]
pub fn delta_len(base_len: u32, text: &[u8]) -> usize
    requires { length text.now < 2 ^ 32 }
    ensures len { result ≡ length (whole_delta base_len text.now) }
    ensures most { result ≤ length text.now + 12 }
{
    if base_len == 0 && text.is_empty() {
        return 0;
    }
    HUNK_HEADER_LEN + text.len()
}

// Appends what stands before a delta of this length.
fn put_header(
    out: &mut Rope,
    delta_len: usize,
    reference: &Reference,
    p: &Id,
    q: &Id,
) -> Result<(), NoMemory>
    requires { delta_len + 84 < 2 ^ 32 }
    ensures bytes { OnOk result (out.new ≡ out.old ++ big_bytes 4 (delta_len + 84) ++ reference.now.node ++ p.now ++ q.now ++ reference.now.link) }
    ensures front { StartsWith out.new out.old }
    ensures ids { OnOk result (IsId reference.now.node × IsId p.now × IsId q.now × IsId reference.now.link) }
{
    let mut field = [0; 4];
    BigEndian::write_u32(&mut field, (delta_len + HEADER_LEN) as u32);
    out.put(&field)?;
    out.put(&reference.node.bytes())?;
    out.put(&p.bytes())?;
    out.put(&q.bytes())?;
    out.put(&reference.link.bytes())?;
    Ok(())
}

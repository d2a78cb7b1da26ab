ghost use Rattle.std.specs.Prelude.{◌≡◌, ◌++◌, None, OnOk, OnErr, IfOk, IfErr};
ghost use Rattle.std.specs.Io.{StartsWith};
ghost use Rattle.hg_model.specs.Changeset.{changeset_text, changeset_fault, IsChangesetText};
ghost use Rattle.text_model.specs.Text.{IsBytes};
ghost use Rattle.hg_changeset.specs.Values.{changeset_value, is_plain, IsFault};
ghost use Rattle.hg_changeset.specs.Reading.{IsHead};

use crate::date::DateLine;
use crate::fault::ChangesetFault;
use crate::lines::{Head, put_files, put_line, read_head, take_files};
use bridge_text::{Bytes, Id, NoMemory, Paths};
use std::alloc::Global;

/// A changeset. The user isn't empty, no path is, and none of these and no date line holds LF in
/// one that was read.
#[derive(Debug, Drop)]
pub struct Changeset {
    /// The node of its manifest.
    pub manifest: Id,
    /// Who made it.
    pub user: Bytes,
    /// When it was made, and further items.
    pub date: DateLine,
    /// The paths of the files that it lists as changed, in the order of its text.
    pub files: Paths,
    /// What was said of it.
    pub desc: Bytes,
}

impl Changeset {
    /// The changeset whose text this is: 40 lower case hex digits of the manifest's node, the
    /// user, the date line and the path of each file, each with LF; then LF and the description.
    /// Shape comes exactly where the text is that of none.
    pub fn read(alloc: Global, text: &[u8]) -> Result<Changeset, ChangesetFault>
        ensures ok { IfOk result (λ changeset. IsChangesetText text.now (changeset_value changeset)) }
        ensures fits { OnOk result (changeset_fault text.now ≡ None) }
        ensures fault { IfErr result (IsFault text.now) }
    {
        match read_head(text) {
            Ok(head) => read_behind(alloc, text, head),
            Err(place) => Err(ChangesetFault::Shape(place)),
        }
    }

    /// Appends the text of the changeset. After want of memory `out` is as it was.
    pub fn write_into(&self, out: &mut Vec<u8>) -> Result<(), NoMemory>
        ensures ok { OnOk result (out.new.items ≡ out.old.items ++ changeset_text (changeset_value self.now)) }
        ensures err { OnErr result (out.new.items ≡ out.old.items) }
    {
        let start = out.len();
        let result = self.put(out);
        if result.is_err() {
            out.truncate(start);
        }
        result
    }

    /// Whether the date line is Plain.
    pub fn is_canonical(&self) -> bool
        ensures { result ≡ is_plain self.now.date }
    {
        matches!(self.date, DateLine::Plain { .. })
    }

    #[tactic(auto, unfolding(hg_model::specs::Changeset::changeset_text))]
    fn put(&self, out: &mut Vec<u8>) -> Result<(), NoMemory>
        ensures ok { OnOk result (out.new.items ≡ out.old.items ++ changeset_text (changeset_value self.now)) }
        ensures front { StartsWith out.new.items out.old.items }
    {
        put_line(out, &self.manifest.hex())?;
        put_line(out, self.user.as_slice())?;
        self.date.put(out)?;
        out.push(b'\n')?;
        put_files(out, self.files.as_slice())?;
        out.push(b'\n')?;
        Ok(out.extend_from_slice(self.desc.as_slice())?)
    }
}

/// The changeset of a text whose first three lines are read.
fn read_behind(alloc: Global, text: &[u8], head: Head<'_>) -> Result<Changeset, ChangesetFault>
    requires bytes { IsBytes text.now }
    requires head { IsHead text.now head.manifest head.user.now head.date.now head.rest.now }
    ensures ok { IfOk result (λ changeset. IsChangesetText text.now (changeset_value changeset)) }
    ensures fits { OnOk result (changeset_fault text.now ≡ None) }
    ensures fault { IfErr result (IsFault text.now) }
{
    let mut files = Paths::new(alloc);
    let Some(desc) = take_files(&mut files, alloc, head.rest)? else {
        return Err(ChangesetFault::Shape(text.len()));
    };
    Ok(Changeset {
        manifest: head.manifest,
        user: Bytes::of(alloc, head.user)?,
        date: DateLine::read(alloc, head.date)?,
        files,
        desc: Bytes::of(alloc, desc)?,
    })
}

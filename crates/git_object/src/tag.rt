ghost use Rattle.std.specs.Prelude.{◌≡◌, ◌++◌, None, IfOk, IfErr, OnOk, OnErr};
ghost use Rattle.std.specs.Io.{StartsWith};
ghost use Rattle.git_model.specs.Commit.{tag_text, tag_fault, tag_target, IsTagText};
ghost use Rattle.git_object.specs.Faults.{IsTagFault};

use crate::fault::TagFault;
use crate::line::{id_line, put_line, type_line, worded_line};
use bridge_text::{Bytes, Id, Kind, NoMemory};
use std::alloc::Global;
use std::marker::Model;

/// An annotated tag.
#[derive(Debug, Drop)]
pub struct Tag {
    /// The id of the object that is tagged.
    pub target: Id,
    /// The kind of that object.
    pub target_kind: Kind,
    /// The name of the tag.
    pub name: Bytes,
    /// All that follows the line of the name: the tagger's line, where there is one, a blank line
    /// and the message.
    pub rest: Bytes,
}

impl Model for Tag {
    ghost use Rattle.git_model.specs.Commit as model;
    ghost use Rattle.bridge_text.specs.Kinds.{object_kind};

    ghost Value = { model.Tag };

    ghost view = { λ t. record { target = t.target; target_kind = object_kind t.target_kind; name = t.name; rest = t.rest } };
}

impl Tag {
    /// The tag whose content this is, as `git cat-file tag` prints it: `object ID` LF,
    /// `type KIND` LF, `tag NAME` LF, and the rest as it is.
    pub fn read(alloc: Global, content: &[u8]) -> Result<Tag, TagFault>
        ensures ok { IfOk result (IsTagText content.now) }
        ensures fits { OnOk result (tag_fault content.now ≡ None) }
        ensures target { IfOk result (λ tag. tag.target ≡ tag_target content.now) }
        ensures fault { IfErr result (IsTagFault content.now) }
    {
        let Some(target) = id_line(b"object ", content) else {
            return Err(TagFault::Shape(0));
        };
        let Some(kind) = type_line(target.1) else {
            return Err(TagFault::Shape(content.len() - target.1.len()));
        };
        let Some((name, rest)) = worded_line(b"tag ", kind.1) else {
            return Err(TagFault::Shape(content.len() - kind.1.len()));
        };
        Ok(Tag {
            target: target.0,
            target_kind: kind.0,
            name: Bytes::of(alloc, name)?,
            rest: Bytes::of(alloc, rest)?,
        })
    }

    /// Appends the content of the tag, which `read` gives back. If memory runs out, `out` is as
    /// it was.
    pub fn write_into(&self, out: &mut Vec<u8>) -> Result<(), NoMemory>
        ensures ok { OnOk result (out.new.items ≡ out.old.items ++ tag_text self.now) }
        ensures err { OnErr result (out.new.items ≡ out.old.items) }
    {
        let start = out.len();
        let result = self.push_lines(out);
        if result.is_err() {
            out.truncate(start);
        }
        result
    }

    #[tactic(auto, unfolding(git_model::specs::Commit::tag_text))]
    fn push_lines(&self, out: &mut Vec<u8>) -> Result<(), NoMemory>
        ensures ok { OnOk result (out.new.items ≡ out.old.items ++ tag_text self.now) }
        ensures front { StartsWith out.new.items out.old.items }
    {
        put_line(out, b"object ", &self.target.hex())?;
        put_line(out, b"type ", self.target_kind.word())?;
        put_line(out, b"tag ", self.name.as_slice())?;
        Ok(out.extend_from_slice(self.rest.as_slice())?)
    }
}

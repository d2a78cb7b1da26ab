ghost use Rattle.std.specs.Prelude.{◌≡◌, ◌++◌, None, IfOk, IfErr, OnOk, OnErr};
ghost use Rattle.std.specs.Io.{StartsWith};
ghost use Rattle.std.specs.List.{flat_map};
ghost use Rattle.git_model.specs.Commit.{parent_line, commit_text, commit_fault, IsCommitText, parent_ids};
ghost use Rattle.git_object.specs.Faults.{IsCommitFault};
ghost use Rattle.git_object.specs.Lines.{AreParents};

use crate::fault::CommitFault;
use crate::line::{id_line, put_line, split_headers, worded_line};
use bridge_text::{Bytes, Id, IdList, NoMemory};
use std::alloc::Global;
use std::marker::Model;

/// A commit.
#[derive(Debug)]
pub struct Commit {
    /// The id of its tree.
    pub tree: Id,
    /// The ids of its parents, in their order.
    pub parents: IdList,
    /// The author's line, without its word and its LF.
    pub author: Bytes,
    /// The committer's line, without its word and its LF.
    pub committer: Bytes,
    /// Further header lines, each with its LF.
    pub headers: Bytes,
    /// The message, which is all that follows the blank line.
    pub message: Bytes,
}

impl Drop for Commit {
    fn drop(self) {
        let Commit {
            tree: _,
            parents: _,
            author: _,
            committer: _,
            headers: _,
            message: _,
        } = self;
    }
}

impl Model for Commit {
    ghost use Rattle.git_model.specs.Commit as model;

    ghost Value = { model.Commit };

    ghost view = { λ c. record { tree_id = c.tree; parents = c.parents; author = c.author; committer = c.committer; headers = c.headers; message = c.message } };
}

impl Commit {
    /// The commit whose content this is, as `git cat-file commit` prints it: `tree ID` LF,
    /// `parent ID` LF for each parent, `author LINE` LF, `committer LINE` LF, further nonempty
    /// lines, LF and the message.
    pub fn read(alloc: Global, content: &[u8]) -> Result<Commit, CommitFault>
        ensures ok { IfOk result (IsCommitText content.now) }
        ensures fits { OnOk result (commit_fault content.now ≡ None) }
        ensures parents { IfOk result (λ commit. commit.parents ≡ parent_ids content.now) }
        ensures fault { IfErr result (IsCommitFault content.now) }
    {
        let Some(tree) = id_line(b"tree ", content) else {
            return Err(CommitFault::Shape(0));
        };
        let mut parents = IdList::new(alloc);
        let rest = read_parents(&mut parents, tree.1)?;
        let Some((author, behind_author)) = worded_line(b"author ", rest) else {
            return Err(CommitFault::Shape(content.len() - rest.len()));
        };
        let Some((committer, rest)) = worded_line(b"committer ", behind_author) else {
            return Err(CommitFault::Shape(content.len() - behind_author.len()));
        };
        let (headers, message) = match split_headers(rest) {
            Ok(parts) => parts,
            Err(at) => return Err(CommitFault::Shape(content.len() - rest.len() + at)),
        };
        Ok(Commit {
            tree: tree.0,
            parents,
            author: Bytes::of(alloc, author)?,
            committer: Bytes::of(alloc, committer)?,
            headers: Bytes::of(alloc, headers)?,
            message: Bytes::of(alloc, message)?,
        })
    }

    /// Appends the content of the commit, which `read` gives back. If memory runs out, `out` is
    /// as it was.
    pub fn write_into(&self, out: &mut Vec<u8>) -> Result<(), NoMemory>
        ensures ok { OnOk result (out.new.items ≡ out.old.items ++ commit_text self.now) }
        ensures err { OnErr result (out.new.items ≡ out.old.items) }
    {
        let start = out.len();
        let result = self.push_lines(out);
        if result.is_err() {
            out.truncate(start);
        }
        result
    }

    #[tactic(auto, unfolding(git_model::specs::Commit::commit_text))]
    fn push_lines(&self, out: &mut Vec<u8>) -> Result<(), NoMemory>
        ensures ok { OnOk result (out.new.items ≡ out.old.items ++ commit_text self.now) }
        ensures front { StartsWith out.new.items out.old.items }
    {
        put_line(out, b"tree ", &self.tree.hex())?;
        put_parents(out, self.parents.as_slice())?;
        put_line(out, b"author ", self.author.as_slice())?;
        put_line(out, b"committer ", self.committer.as_slice())?;
        put_line(out, b"", self.headers.as_slice())?;
        Ok(out.extend_from_slice(self.message.as_slice())?)
    }
}

/// Appends the ids of the parents' lines with which the text begins. The answer is what follows
/// them.
fn read_parents<'a>(parents: &mut IdList, text: &'a [u8]) -> Result<&'a [u8], NoMemory>
    ensures { IfOk result (λ rest. AreParents text.entry.now parents.old parents.new rest.now) }
{
    let mut rest = text;
    'parents: while let Some(line) = id_line(b"parent ", rest) {
        parents.push(line.0)?;
        rest = line.1;
    }
    Ok(rest)
}

fn put_parents(out: &mut Vec<u8>, parents: &[Id]) -> Result<(), NoMemory>
    ensures ok { OnOk result (out.new.items ≡ out.old.items ++ flat_map parent_line parents.now) }
    ensures front { StartsWith out.new.items out.old.items }
{
    for parent in parents {
        put_parent(out, parent)?;
    }
    Ok(())
}

fn put_parent(out: &mut Vec<u8>, parent: &Id) -> Result<(), NoMemory>
    ensures ok { OnOk result (out.new.items ≡ out.old.items ++ parent_line parent.now) }
    ensures err { OnErr result (out.new.items ≡ out.old.items) }
{
    put_line(out, b"parent ", &parent.hex())
}

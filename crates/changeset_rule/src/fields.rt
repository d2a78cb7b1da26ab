ghost use Rattle.std.specs.Prelude.{◌≡◌, [], IfOk};
ghost use Rattle.text_model.specs.Text.{IsBytes};
ghost use Rattle.hg_model.specs.Changeset.{Plain, changeset_text};
ghost use Rattle.hg_changeset.specs.Values.{changeset_value};
ghost use Rattle.pair_model.specs.User.{user_of_line, description_of};

use bridge_text::{Bytes, Id, NoMemory, Paths};
use git_object::Commit;
use hg_changeset::{Changeset, DateLine, Extras};
use name_rule::{desc_of_message, user_of_line};
use std::alloc::Global;

/// The fields of the changeset of a commit, with this manifest and these files.
pub fn fields_of(
    alloc: Global,
    commit: &Commit,
    manifest: Id,
    files: Paths,
) -> Result<Changeset, NoMemory>
    ensures fields { IfOk result (λ x. changeset_value x ≡ record {
      manifest = manifest;
      user = (user_of_line commit.now.author).user;
      date = Plain (user_of_line commit.now.author).time (user_of_line commit.now.author).tz [];
      files = files;
      description = description_of commit.now.message;
    }) }
    ensures user { IfOk result (λ x. IsBytes x.user) }
    ensures desc { IfOk result (λ x. IsBytes x.desc) }
{
    let author = commit.author.as_slice();
    let message = commit.message.as_slice();
    changeset_of(alloc, author, message, manifest, files)
}

// The changeset with this author's line, message, manifest and files.
fn changeset_of(
    alloc: Global,
    author: &[u8],
    message: &[u8],
    manifest: Id,
    files: Paths,
) -> Result<Changeset, NoMemory>
    ensures fields { IfOk result (λ x. changeset_value x ≡ record {
      manifest = manifest;
      user = (user_of_line author.now).user;
      date = Plain (user_of_line author.now).time (user_of_line author.now).tz [];
      files = files;
      description = description_of message.now;
    }) }
    ensures user { IfOk result (λ x. IsBytes x.user) }
    ensures desc { IfOk result (λ x. IsBytes x.desc) }
{
    let author = user_of_line(alloc, author)?;
    Ok(Changeset {
        manifest,
        user: author.user,
        date: DateLine::Plain {
            time: author.time,
            tz: author.tz,
            extras: Extras::new(alloc),
        },
        files,
        desc: Bytes::of(alloc, desc_of_message(message))?,
    })
}

/// The text of a changeset.
pub fn text_of(alloc: Global, changeset: &Changeset) -> Result<Bytes, NoMemory>
    ensures { IfOk result (λ text. text ≡ changeset_text (changeset_value changeset.now)) }
{
    let mut text = Vec::new(alloc);
    changeset.write_into(&mut text)?;
    Ok(Bytes::keep(text))
}

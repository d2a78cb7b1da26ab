// The sections of a state's text, one by one.
ghost use Rattle.std.specs.Prelude.{◌≡◌, ◌≢◌, ◌++◌, List, length, IfOk, MatchOption};
ghost use Rattle.text_model.specs.Text.{Bytes};
ghost use Rattle.view_model.specs.View.{ChangesetView, CommitView};
ghost use Rattle.git_model.specs.Object.{Object};
ghost use Rattle.git_section.specs.Sections.{HoldsCommits};
ghost use Rattle.state_model.specs.Kept as kept;
ghost use Rattle.state_part.specs.Form.{IsEnd};
ghost use Rattle.state_text.specs.Sections.{NoHg, HasHg, NoGit, HasGit, NoTags, HasTags, pairs_text};

use crate::blocks::pairs_of;
use crate::heads::{Heads, heads_among};
use bridge_text::NoMemory;
use git_section::{GitSection, read_commits};
use hg_section::{HgSection, read_changesets};
use known_blobs::KnownBlobs;
use pair_state::Blocks;
use shared_text::Text;
use state_part::{GIT, HG, put_map, read_section, shared_section};
use std::alloc::Global;
use tag_section::{TagSection, read_tags};

/// The section of the kept tags.
pub const TAGS: &[u8] = b"tags";

/// The section of the changesets that bytes begin with.
#[derive(Drop)]
pub struct HgPart<'a> {
    /// The changesets.
    pub section: HgSection,
    /// Those that are no links.
    pub heads: Heads,
    /// What follows the section.
    pub rest: &'a [u8],
}

/// The section of the commits that bytes begin with.
#[derive(Drop)]
pub struct GitPart<'a> {
    /// The commits.
    pub section: GitSection,
    /// The size of their dump.
    pub used: usize,
    /// What follows the section.
    pub rest: &'a [u8],
}

/// The section of the kept tags that bytes begin with.
#[derive(Drop)]
pub struct TagPart<'a> {
    /// The tags, with the commits.
    pub section: TagSection,
    /// What follows the section.
    pub rest: &'a [u8],
}

/// The changesets whose section begins the bytes, an end of the text, of which they keep parts; `None` exactly where no changesets that can
/// be saved have such a section.
pub fn read_hg<'a>(
    alloc: Global,
    text: &Text,
    bytes: &'a [u8],
) -> Result<Option<HgPart<'a>>, NoMemory>
    requires ends { IsEnd text.now bytes.now }
    ensures { IfOk result (λ found. MatchOption found (NoHg bytes.entry.now)
        (λ p. (hs : List ChangesetView) × HasHg bytes.entry.now p.section p.heads p.rest.now hs)) }
{
    let Some(part) = shared_section(HG, text, bytes)? else {
        return Ok(None);
    };
    let Some(section) = read_changesets(alloc, &part.text)? else {
        return Ok(None);
    };
    let Some(heads) = heads_among(alloc, &section.store, section.nodes.as_slice())? else {
        return Ok(None);
    };
    Ok(Some(HgPart {
        section,
        heads,
        rest: part.rest,
    }))
}

/// The commits whose section begins the bytes, an end of the text, of which they keep parts; `None` exactly where no commits that can be
/// saved have such a section. Blobs that are bodies of the changesets' files aren't hashed again.
pub fn read_git<'a>(
    alloc: Global,
    text: &Text,
    bytes: &'a [u8],
    hg: &HgSection,
) -> Result<Option<GitPart<'a>>, NoMemory>
    requires ends { IsEnd text.now bytes.now }
    ensures { IfOk result (λ found. MatchOption found (NoGit bytes.entry.now)
        (λ p. (cs : List CommitView) × HasGit bytes.entry.now p.section p.used p.rest.now cs)) }
{
    let Some(part) = shared_section(GIT, text, bytes)? else {
        return Ok(None);
    };
    let known = KnownBlobs::new(alloc, &hg.store, &hg.arrivals)?;
    let Some(section) = read_commits(alloc, &part.text, &known)? else {
        return Ok(None);
    };
    Ok(Some(GitPart {
        section,
        used: part.text.len(),
        rest: part.rest,
    }))
}

/// What follows the section of these pairs; `None` exactly where the bytes don't begin with it.
pub fn read_pairs<'a>(
    alloc: Global,
    blocks: &Blocks,
    bytes: &'a [u8],
) -> Result<Option<&'a [u8]>, NoMemory>
    ensures { IfOk result (λ found. MatchOption found ((rest : Bytes) → bytes.entry.now ≢ pairs_text blocks.now ++ rest)
        (λ rest. bytes.entry.now ≡ pairs_text blocks.now ++ rest.now)) }
{
    let pairs = pairs_of(alloc, blocks)?;
    let mut text = Vec::new(alloc);
    put_map(&mut text, pairs.as_slice())?;
    Ok(bytes.strip_prefix(text.as_slice()))
}

/// The tags whose section begins the bytes, over commits whose dump has the size `used`; `None` exactly where no tags that can be saved
/// over them have such a section.
pub fn read_tagged<'a>(
    alloc: Global,
    section: GitSection,
    used: usize,
    bytes: &'a [u8],
) -> Result<Option<TagPart<'a>>, NoMemory>
    ensures { IfOk result (λ found. (cs : List CommitView) → HoldsCommits section cs → length (kept.git_dump cs) ≡ used
        → MatchOption found (NoTags cs bytes.entry.now)
        (λ p. (tags : List Object) × HasTags cs bytes.entry.now p.section p.rest.now tags)) }
{
    let Some(part) = read_section(TAGS, bytes) else {
        return Ok(None);
    };
    let Some(section) = read_tags(alloc, section, used, part.text)? else {
        return Ok(None);
    };
    Ok(Some(TagPart {
        section,
        rest: part.rest,
    }))
}

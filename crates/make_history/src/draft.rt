// A changeset with all that it stands for.
ghost use Rattle.std.specs.Prelude.{◌≡◌, ◌≤◌, false, IfOk, IfSome};
ghost use Rattle.make_model.specs.Dump.{most_changesets};
ghost use Rattle.text_model.specs.Lists.{Each};
ghost use Rattle.hg_store.specs.Known.{knows_same};
ghost use Rattle.view_model.specs.View.{rows_text};
ghost use Rattle.pair_model.specs.Block.{Parents};
ghost use Rattle.pair_known.specs.Drafts.{IsHgDraft, AreFreshOf};
ghost use Rattle.file_rule.specs.Made.{fresh_list};
ghost use Rattle.make_history.specs.Made.{numbers_value};
ghost use Rattle.make_history.specs.Drafts.{IsOver, next_rows, next_view};

use crate::fields::make_fields;
use crate::numbers::Numbers;
use crate::row::make_row;
use crate::rows::rows_with;
use bridge_text::{Bytes, Id, NoMemory};
use file_rule::parent_of;
use hg_store::HgStore;
use manifest_rule::{files_over, make_manifest};
use pair_known::{DraftTexts, FreshFile, FreshFiles, HgDraft};
use std::alloc::Global;

/// A changeset with the lines of its manifest, where they were made.
#[derive(Drop)]
pub struct Next {
    pub draft: HgDraft,
    pub lines: Option<Bytes>,
}

/// The changeset with this number over the parents with these nodes, which are held or null.
pub fn make_draft(
    alloc: Global,
    store: &HgStore,
    p1: Id,
    p2: Id,
    numbers: &Numbers,
    number: u64,
) -> Result<Next, NoMemory>
    requires few { number ≤ most_changesets }
    requires over { (ps : Parents) × IsOver store.now p1 p2 ps }
    ensures draft { IfOk result (λ next. (ps : Parents) → IsOver store.now p1 p2 ps → IsHgDraft store.now next.draft (next_view ps (numbers_value numbers.now) number)) }
    ensures fresh { IfOk result (λ next. (ps : Parents) → IsOver store.now p1 p2 ps → AreFreshOf next.draft.fresh (next_rows ps (numbers_value numbers.now) number)) }
    ensures unknown { IfOk result (λ next. Each (λ r. knows_same store.now r ≡ false) next.draft.fresh) }
    ensures lines { IfOk result (λ next. (ps : Parents) → IsOver store.now p1 p2 ps → IfSome next.lines (λ text. text ≡ rows_text (next_rows ps (numbers_value numbers.now) number))) }
{
    let first = parent_of(store, &p1);
    let second = parent_of(store, &p2);
    let made = make_row(alloc, store, &first, &second, numbers, number)?;
    let rows = rows_with(alloc, store, first.manifest, made.row)?;
    let fresh = fresh_files(alloc, made.fresh)?;
    let manifest = make_manifest(alloc, store, &rows, &first, &second)?;
    let files = files_over(alloc, &rows, &first, &second)?;
    let changeset = make_fields(alloc, numbers, number, manifest.node, files)?;
    Ok(Next {
        draft: HgDraft {
            p1,
            p2,
            changeset,
            manifest: manifest.manifest,
            rows,
            fresh,
            texts: DraftTexts::none(),
        },
        lines: manifest.text,
    })
}

// The file revision that the store doesn't hold, if there is one.
fn fresh_files(alloc: Global, made: Option<FreshFile>) -> Result<FreshFiles, NoMemory>
    ensures { IfOk result (λ files. files ≡ fresh_list made) }
{
    let mut fresh = FreshFiles::new(alloc);
    if let Some(file) = made {
        fresh.push(file)?;
    }
    Ok(fresh)
}

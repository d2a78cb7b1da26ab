// Which mark may stand behind which.
ghost use Rattle.std.specs.Prelude.{◌≡◌, option_map};
ghost use Rattle.pair_model.specs.MarkList.{mark_rank, rising_part, part_rises, is_date_pair, may_follow};
ghost use Rattle.mark_code.specs.Reading.{is_date};
ghost use Rattle.mark_code.specs.Values.{mark_value};

use crate::mark::Mark;
use std::cmp::Ordering;

/// Whether a mark may stand directly behind another: of a later kind, or of one kind with a path
/// or key that rises as bytes; and no raw date line behind a date or an extra.
pub fn may_follow(before: &Mark, mark: &Mark) -> bool
    ensures { result ≡ may_follow (mark_value before.now) (mark_value mark.now) }
{
    let (first, second) = (rank(before), rank(mark));
    !is_date_pair(before, mark)
        && (first < second
            || (first == second && part_rises(rising_part(before), rising_part(mark))))
}

fn is_date_pair(before: &Mark, mark: &Mark) -> bool
    ensures { result ≡ is_date_pair (mark_value before.now) (mark_value mark.now) }
{
    match mark {
        Mark::Raw(_) => is_date(before),
        _ => false,
    }
}

fn is_date(mark: &Mark) -> bool
    ensures { result ≡ is_date (mark_value mark.now) }
{
    match mark {
        Mark::Date { .. } | Mark::Extra { .. } => true,
        _ => false,
    }
}

// The place of a kind among the kinds.
fn rank(mark: &Mark) -> u8
    ensures { result ≡ mark_rank (mark_value mark.now) }
{
    match mark {
        Mark::Rename { .. } | Mark::File { .. } => 0,
        Mark::Manifest(_) => 1,
        Mark::Files(_) => 2,
        Mark::User(_) => 3,
        Mark::Date { .. } => 4,
        Mark::Extra { .. } => 5,
        Mark::Raw(_) => 6,
    }
}

// What rises within a kind.
fn rising_part(mark: &Mark) -> Option<&[u8]>
    ensures { option_map (λ part. part.now) result ≡ rising_part (mark_value mark.now) }
{
    match mark {
        Mark::Rename { path, .. } | Mark::File { path, .. } => Some(path.as_slice()),
        Mark::Extra { key, .. } => Some(key.as_slice()),
        _ => None,
    }
}

fn part_rises(before: Option<&[u8]>, part: Option<&[u8]>) -> bool
    ensures { result ≡ part_rises (option_map (λ part. part.now) before.entry) (option_map (λ part. part.now) part.entry) }
{
    match (before, part) {
        (Some(before), Some(part)) => before.cmp(part) == Ordering::Less,
        _ => false,
    }
}

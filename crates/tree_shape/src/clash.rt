// The first row whose path lies below that of an earlier row.
ghost use Rattle.std.specs.Prelude.{◌≡◌, ◌++◌, [], ◌∷◌, map, None, IsTrue, bytes_eq};
ghost use Rattle.std.specs.List.{list_any};
ghost use Rattle.text_model.specs.Lists.{rises};
ghost use Rattle.text_model.specs.Text.{is_below};
ghost use Rattle.text_model.specs.Path.{lies_below};
ghost use Rattle.git_model.specs.Unfold.{FileRow};
ghost use Rattle.git_model.specs.Shape.{first_clash};
ghost use Rattle.tree_shape.specs.Clashes.{shared, begins_with_slash};

use crate::file_row::FileRow;
use std::cmp::Ordering;

/// A row of a list of files, by its path.
pub trait HasPath {
    /// The file of a tree as which it stands; its path alone decides where rows clash.
    ghost file: { Self → FileRow };

    /// Its path.
    fn path(&self) -> &[u8]
        ensures { result.now ≡ (file self.now).path };
}

/// How many of their first bytes two paths share.
fn shared_len(path: &[u8], other: &[u8]) -> usize
    ensures { result ≡ shared path.now other.now }
{
    let mut count = 0;
    'bytes: while count < path.len() && count < other.len() && path[count] == other[count] {
        count += 1;
    }
    count
}

/// Whether a slash comes first.
pub fn begins_with_slash(text: &[u8]) -> bool
    ensures { result ≡ begins_with_slash text.now }
{
    match text {
        [] => false,
        [first, ..] => *first == b'/',
    }
}

/// Whether one of the rows, which rise, has this path.
fn has_path<R: HasPath>(rows: &[R], path: &[u8]) -> bool
    requires { IsTrue (rises is_below (map (λ r. r.path) (map (R.file) rows.now))) }
    ensures { result ≡ list_any (λ r. bytes_eq r.path path.now) (map (R.file) rows.now) }
{
    let place = rows.partition_point(
        |row: &R| -> bool
            ensures { result ≡ is_below (R.file row.now).path path.entry.now }
        { is_below(row.path(), path) },
    );
    if place < rows.len() {
        rows[place].path() == path
    } else {
        false
    }
}

fn is_below(path: &[u8], other: &[u8]) -> bool
    ensures { result ≡ is_below path.now other.now }
{
    path.cmp(other) == Ordering::Less
}

/// Whether the path of a row lies below that of one of the rows before it, none of which lies below another. It then lies
/// below the path that it shares with the last of them: what stands between two paths with one front has that front too.
fn lies_below_one<R: HasPath>(before: &[R], row: &R) -> bool
    requires rising { IsTrue (rises is_below (map (λ r. r.path) (map (R.file) before.now ++ R.file row.now ∷ []))) }
    requires apart { first_clash (map (R.file) before.now) ≡ None }
    ensures { result ≡ list_any (λ b. lies_below (R.file row.now).path b.path) (map (R.file) before.now) }
{
    let Some(last) = before.last() else {
        return false;
    };
    let path = row.path();
    let count = shared_len(last.path(), path);
    let (front, rest) = path.split_at(count);
    begins_with_slash(rest) && has_path(before, front)
}

/// The place of the first file whose path lies below that of a file before it, where the files rise.
pub fn find_clash(rows: &[FileRow]) -> Option<usize>
    requires { IsTrue (rises is_below (map (λ r. r.path) rows.now)) }
    ensures { result ≡ first_clash rows.now }
{
    find_row_clash(rows)
}

/// The place of the first row whose path lies below that of a row before it, where the rows rise.
pub fn find_row_clash<R: HasPath>(rows: &[R]) -> Option<usize>
    requires { IsTrue (rises is_below (map (λ r. r.path) (map (R.file) rows.now))) }
    ensures { result ≡ first_clash (map (R.file) rows.now) }
{
    for (place, row) in rows.iter().enumerate() {
        if lies_below_one(rows.split_at(place).0, row) {
            return Some(place);
        }
    }
    None
}

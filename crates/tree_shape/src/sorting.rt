// Rows in one of two orders.
ghost use Rattle.std.specs.Prelude.{◌≡◌, ◌≢◌, ◌||◌, ◌∷◌, not, List, IfOk, OnOk};
ghost use Rattle.std.specs.List.{list_any};
ghost use Rattle.text_model.specs.Lists.{Each};
ghost use Rattle.text_model.specs.Text.{is_below};
ghost use Rattle.git_model.specs.Tree.{is_directory, order_name};
ghost use Rattle.git_model.specs.Unfold.{by_paths, by_walk};
ghost use Rattle.git_model.proofs.SortLemmas.{Ascends, Distinct};
ghost use Rattle.tree_shape.specs.Orders.{counts_as_folder, key_in, Same};

use crate::file_row::FileRow;
use bridge_text::NoMemory;
use git_object::OrderName;
use shared_text::again;
use std::alloc::Global;

/// An order of rows.
#[derive(Clone, Copy)]
pub enum Order {
    /// That of their paths.
    Paths,
    /// That in which a walk through their tree meets them: the path of a directory counts with a slash at its end.
    Walk,
}

fn counts_as_folder(order: Order, row: &FileRow) -> bool
    ensures { result ≡ counts_as_folder order row.now.mode }
{
    match order {
        Order::Paths => false,
        Order::Walk => row.mode().is_directory(),
    }
}

/// Whether a row stands before another.
fn is_before(order: Order, row: &FileRow, other: &FileRow) -> bool
    ensures { result ≡ is_below (key_in order row.now) (key_in order other.now) }
{
    let name = OrderName {
        name: row.path(),
        is_directory: counts_as_folder(order, row),
    };
    let other_name = OrderName {
        name: other.path(),
        is_directory: counts_as_folder(order, other),
    };
    name.is_below(&other_name)
}

/// Puts a row among others, where it belongs.
fn insert(order: Order, rows: &mut Vec<FileRow>, row: FileRow) -> Result<(), NoMemory>
    requires order { Ascends (key_in order) rows.old.items }
    requires other { Each (λ r. key_in order row ≢ key_in order r) rows.old.items }
    ensures order { OnOk result (Ascends (key_in order) rows.new.items) }
    ensures same { OnOk result (Same rows.new.items (row ∷ rows.old.items)) }
{
    let mut place = rows.len();
    'place: while place > 0 && is_before(order, &row, &rows[place - 1]) {
        place -= 1;
    }
    rows.insert(place, row)?;
    Ok(())
}

/// Whether one of the rows is a directory.
pub fn has_directory(rows: &[FileRow]) -> bool
    ensures { result ≡ list_any (λ r. is_directory r.mode) rows.now }
{
    rows.iter().any(
        |row: &FileRow| -> bool
            ensures { result ≡ is_directory row.now.mode }
        { row.mode().is_directory() },
    )
}

/// These rows in the order of their paths, not copied.
pub fn by_paths(alloc: Global, rows: Vec<FileRow>) -> Result<Vec<FileRow>, NoMemory>
    requires paths { Distinct (λ r. r.path) rows.items }
    ensures { IfOk result (λ sorted. sorted.items ≡ by_paths rows.items) }
{
    let mut sorted = Vec::new(alloc);
    for row in rows {
        insert(Order::Paths, &mut sorted, row)?;
    }
    Ok(sorted)
}

fn copy_of(row: &FileRow) -> Result<FileRow, NoMemory>
    ensures { IfOk result (λ copy. copy ≡ row.now) }
{
    Ok(FileRow {
        path: again(&row.path)?,
        mode: row.mode(),
        blob: *row.blob(),
    })
}

/// These rows again in the order of a walk, whose paths are not copied.
pub fn by_walk(alloc: Global, rows: &[FileRow]) -> Result<Vec<FileRow>, NoMemory>
    requires { Distinct (key_in Order.Walk) rows.now }
    ensures { IfOk result (λ sorted. sorted.items ≡ by_walk rows.now) }
{
    let mut sorted = Vec::new(alloc);
    for row in rows {
        let copy = copy_of(row)?;
        insert(Order::Walk, &mut sorted, copy)?;
    }
    Ok(sorted)
}

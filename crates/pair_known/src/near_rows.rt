ghost use Rattle.std.specs.Prelude.{◌≡◌, IfSome};
ghost use Rattle.text_model.specs.Lists.{In};

use crate::hg_draft::is_of;
use crate::hg_row::HgRow;
use bridge_text::Id;
use hg_manifest::Entry;
use std::marker::Model;

/// Looks up entries among a changeset's files. Where their paths come in rising order, as those of another changeset's files do, all of them
/// together take one walk through the rows. Contracts see the rows.
#[derive(Drop)]
pub struct NearRows<'a> {
    rows: &'a [HgRow],
    // Where the walk stands.
    place: usize,
}

impl<'a> Model for NearRows<'a> {
    ghost use Rattle.std.specs.Prelude.{List};
    ghost use Rattle.pair_known.specs.Rows.{RowValue};

    ghost Value = { List RowValue };

    ghost view = { λ n. (n.rows).now };
}

impl<'a> NearRows<'a> {
    /// Before the first of these rows.
    pub fn new(rows: &'a [HgRow]) -> NearRows<'a>
        ensures { result ≡ rows.now }
    {
        NearRows { rows, place: 0 }
    }

    /// The row with the path and the revision of an entry, where the walk comes to it.
    pub fn get(&mut self, entry: &Entry) -> Option<&'a HgRow>
        ensures among { IfSome result (λ row. In row.now self.old) }
        ensures same_file { IfSome result (λ row. (row.now.path ≡ entry.now.path) × (row.now.node ≡ entry.now.node)) }
        ensures same { self.new ≡ self.old }
    {
        self.place = place_from(self.rows, self.place, entry);
        let row = self.rows.get(self.place)?;
        if !is_of(row, entry) {
            return None;
        }
        Some(row)
    }
}

// Where an entry's row stands, mostly right behind that of the entry before; or else the first row, from that one on, which isn't below the entry's path.
fn place_from(rows: &[HgRow], from: usize, entry: &Entry) -> usize {
    if from < rows.len() && has_node(rows.get(from + 1), &entry.node) {
        return from + 1;
    }
    let path = entry.path.as_slice();
    let mut place = from;
    'rows: while place < rows.len() && is_below(&rows[place], path) {
        place += 1;
    }
    place
}

// Whether there is a row with this node.
fn has_node(row: Option<&HgRow>, node: &Id) -> bool {
    match row {
        Some(row) => row.node == *node,
        None => false,
    }
}

// Whether a row's path stands below another path.
fn is_below(row: &HgRow, path: &[u8]) -> bool {
    row.path.as_slice().cmp(path).is_lt()
}

ghost use Rattle.std.specs.Prelude.{◌≡◌, IsTrue};
ghost use Rattle.text_model.specs.Lists.{SomeOf};

use pair_known::HgRow;
use std::marker::Model;

/// Tells of a changeset's files whether their blobs stand among those of another's. Where the files come in rising order of their paths, all of them
/// together take one walk through the rows. Contracts see the rows.
#[derive(Drop)]
pub struct NearBlobs<'a> {
    rows: &'a [HgRow],
    // Where the walk stands.
    place: usize,
}

impl<'a> Model for NearBlobs<'a> {
    ghost use Rattle.std.specs.Prelude.{List};
    ghost use Rattle.pair_known.specs.Rows.{RowValue};

    ghost Value = { List RowValue };

    ghost view = { λ n. (n.rows).now };
}

impl<'a> NearBlobs<'a> {
    /// Before the first of these rows.
    pub fn new(rows: &'a [HgRow]) -> NearBlobs<'a>
        ensures { result ≡ rows.now }
    {
        NearBlobs { rows, place: 0 }
    }

    /// Whether the walk comes to a row with the blob of a file.
    pub fn has(&mut self, file: &HgRow) -> bool
        ensures among { IsTrue result → SomeOf self.old (λ row. row.blob ≡ file.now.blob) }
        ensures same { self.new ≡ self.old }
    {
        self.place = place_from(self.rows, self.place, file);
        let Some(row) = self.rows.get(self.place) else {
            return false;
        };
        if !is_same_blob(row, file) {
            return false;
        }
        self.place += 1;
        true
    }
}

// Where the blob of a file stands, mostly at the walk's place, and right behind it after a file whose blob differs; or else the first row, from that place
// on, which isn't below the file's path.
fn place_from(rows: &[HgRow], from: usize, file: &HgRow) -> usize {
    if stands_at(rows, from, file) {
        return from;
    }
    if from < rows.len() && stands_at(rows, from + 1, file) {
        return from + 1;
    }
    let path = file.path.as_slice();
    let mut place = from;
    'rows: while place < rows.len() && is_below(&rows[place], path) {
        place += 1;
    }
    place
}

// Whether the blob of a file stands at a place.
fn stands_at(rows: &[HgRow], place: usize, file: &HgRow) -> bool {
    match rows.get(place) {
        Some(row) => is_same_blob(row, file),
        None => false,
    }
}

// Whether two files have the same blob.
fn is_same_blob(row: &HgRow, file: &HgRow) -> bool
    ensures { IsTrue result → row.now.blob ≡ file.now.blob }
{
    row.blob == file.blob
}

// Whether a row's path stands below another path.
fn is_below(row: &HgRow, path: &[u8]) -> bool {
    row.path.as_slice().cmp(path).is_lt()
}

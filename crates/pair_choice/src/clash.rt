// Whether a path of a changeset lies below another.
ghost use Rattle.std.specs.Prelude.{◌≡◌, map, IsTrue};
ghost use Rattle.text_model.specs.Lists.{rises};
ghost use Rattle.text_model.specs.Text.{is_below};
ghost use Rattle.view_model.specs.View.{has_clash};

use pair_known::HgRow;
use tree_shape::find_row_clash;

/// Whether the path of a row lies below that of another, where the rows rise.
pub fn has_clash(rows: &[HgRow]) -> bool
    requires { IsTrue (rises is_below (map (λ r. r.path) rows.now)) }
    ensures { result ≡ has_clash (map (λ r. r.path) rows.now) }
{
    find_row_clash(rows).is_some()
}

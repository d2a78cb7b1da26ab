// The order in which a file revision has its parents.
ghost use Rattle.std.specs.Prelude.{◌≡◌, Option};
ghost use Rattle.text_model.specs.Text.{Bytes};
ghost use Rattle.hg_model.specs.FileText as file_text;
ghost use Rattle.hg_model.specs.FileText.{IsFileText};

use bridge_text::Id;
use hg_filelog::{file_order, split};
use pair_known::FreshFile;

/// The parents of a file revision: a null one first where the metadata name a copy, else last; two others in rising order.
pub fn parents_of(file: &FreshFile) -> (Id, Id)
    ensures { (meta : Option Bytes) (body : Bytes) → IsFileText file.now.text meta body → result ≡ file_text.file_order meta file.now.p file.now.q }
{
    match split(file.text.as_slice()) {
        Ok((meta, _)) => file_order(meta, file.p, file.q),
        Err(_) => (file.p, file.q),
    }
}

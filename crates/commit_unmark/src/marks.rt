// Looking up marks.
ghost use Rattle.std.specs.Prelude.{◌≡◌, option_map};
ghost use Rattle.std.specs.List.{find};
ghost use Rattle.pair_model.specs.MarkList.{IsMarkList};
ghost use Rattle.mark_code.specs.Values.{mark_value};
ghost use Rattle.commit_unmark.specs.Parts.{is_of};

use mark_code::{CommitMarks, Mark};

/// The kinds of marks of which a list has one at most.
#[derive(Clone, Copy)]
pub enum Kind {
    /// The parents of the manifest.
    Manifest,
    /// The list of files.
    Files,
    /// The user.
    User,
    /// The numbers of the date, or a date line as it is.
    Date,
}

/// The first mark of a kind in a mark list; `None` exactly where there is none.
pub fn first_of(marks: &CommitMarks, kind: Kind) -> Option<&Mark>
    ensures first { option_map (λ m. mark_value m.now) result ≡ find (is_of kind) marks.now }
    ensures list { IsMarkList marks.now }
{
    for place in 0..marks.len() {
        let mark = marks.at(place);
        if is_of(kind, mark) {
            return Some(mark);
        }
    }
    None
}

fn is_of(kind: Kind, mark: &Mark) -> bool
    ensures { result ≡ is_of kind (mark_value mark.now) }
{
    match (kind, mark) {
        (Kind::Manifest, Mark::Manifest(_)) => true,
        (Kind::Files, Mark::Files(_)) => true,
        (Kind::User, Mark::User(_)) => true,
        (Kind::Date, Mark::Date { .. } | Mark::Raw(_)) => true,
        _ => false,
    }
}

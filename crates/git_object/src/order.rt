// The order of a tree's entries.
ghost use Rattle.std.specs.Prelude.{◌≡◌, ◌++◌};
ghost use Rattle.text_model.specs.Text.{is_below};
ghost use Rattle.git_model.specs.Tree.{order_name};
ghost use Rattle.git_object.specs.Values.{order_end};

use std::cmp::Ordering;

/// A name as it counts in the order of entries: that of a directory has a slash at its end.
#[derive(Clone, Copy)]
pub struct OrderName<'a> {
    pub name: &'a [u8],
    pub is_directory: bool,
}

impl<'a> OrderName<'a> {
    /// Whether this name stands before the other.
    pub fn is_below(&self, other: &OrderName<'_>) -> bool
        ensures { result ≡ is_below (order_name self.now.is_directory self.now.name.now) (order_name other.now.is_directory other.now.name.now) }
    {
        if let Some(rest) = other.name.strip_prefix(self.name) {
            ends_below(self.is_directory, rest, other.is_directory)
        } else if let Some(rest) = self.name.strip_prefix(other.name) {
            goes_on_below(rest, self.is_directory, other.is_directory)
        } else {
            are_below(self.name, other.name)
        }
    }
}

/// Whether a name stands before the same name with the rest behind it.
fn ends_below(is_directory: bool, rest: &[u8], other_is_directory: bool) -> bool
    ensures { result ≡ is_below (order_end is_directory) (rest.now ++ order_end other_is_directory) }
{
    match rest {
        [] => !is_directory && other_is_directory,
        [first, more @ ..] => {
            !is_directory
                || b'/' < *first
                || (b'/' == *first && (other_is_directory || !more.is_empty()))
        }
    }
}

/// Whether a name with the rest behind it stands before the name.
fn goes_on_below(rest: &[u8], is_directory: bool, other_is_directory: bool) -> bool
    ensures { result ≡ is_below (rest.now ++ order_end is_directory) (order_end other_is_directory) }
{
    match rest {
        [] => !is_directory && other_is_directory,
        [first, _more @ ..] => *first < b'/' && other_is_directory,
    }
}

fn are_below(bytes: &[u8], other: &[u8]) -> bool
    ensures { result ≡ is_below bytes.now other.now }
{
    bytes.cmp(other) == Ordering::Less
}

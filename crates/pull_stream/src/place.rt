// Where an object stands in a stream.
ghost use Rattle.std.specs.Prelude.{◌≡◌};
ghost use Rattle.pull_stream.specs.Ready.{place_among};

use bridge_text::Id;
use git_batch::ObjectArrivals;

/// The place at which the object with this id came first; `None` exactly where it didn't come. It looks through all that came.
pub fn first_place(came: &ObjectArrivals, id: &Id) -> Option<u64>
    ensures { result ≡ place_among came.now id.now }
{
    came.as_slice().iter().find(|a| a.id == *id).map(|a| a.at)
}

// A set of places.
ghost use Rattle.std.specs.Prelude.{◌≡◌, ◌≤◌, ◌==◌, ◌&&◌, ◌||◌, not, ℕ, false, OnOk, IfSome, IfNone};
ghost use Rattle.std.specs.Ordering.{nat_cmp};
ghost use Rattle.std.specs.BTreeSet.{contains};
ghost use Rattle.git_store.specs.Stage.{Holds};

use bridge_text::NoMemory;
use std::collections::BTreeSet;

/// Puts a place in.
pub fn add(queue: &mut BTreeSet<usize>, place: usize) -> Result<(), NoMemory>
    ensures { OnOk result ((i : ℕ) → contains nat_cmp queue.new i ≡ (i == place || contains nat_cmp queue.old i)) }
{
    queue.insert(place)?;
    Ok(())
}

/// Takes the first place out.
pub fn take_first(queue: &mut BTreeSet<usize>) -> Option<usize>
    ensures held { IfSome result (Holds queue.old) }
    ensures first { IfSome result (λ first. (i : ℕ) → Holds queue.old i → first ≤ i) }
    ensures left { IfSome result (λ first. (i : ℕ) → contains nat_cmp queue.new i ≡ (not (i == first) && contains nat_cmp queue.old i)) }
    ensures none { IfNone result ((i : ℕ) → contains nat_cmp queue.old i ≡ false) }
{
    queue.pop_first()
}

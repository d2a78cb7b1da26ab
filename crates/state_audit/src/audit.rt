// The audit of a saved history.
ghost use Rattle.std.specs.Prelude.{◌≡◌, ◌≤◌, ◌+◌, ◌*◌, ◌↔◌, ℕ, length, IfOk};
ghost use Rattle.text_model.specs.Id as id;
ghost use Rattle.state_model.specs.Kept as saved;
ghost use Rattle.state_model.specs.Saved.{IsState};
ghost use Rattle.verify_model.specs.Holds.{StateHolds, StateDiffers};
ghost use Rattle.state_text.specs.Stands.{Stands, HoldsExactly};
ghost use Rattle.state_audit.specs.declared.verdict.Verdict.TheVariants as verdict;

use crate::checked::Checked;
use crate::judge::{Judgement, judge};
use crate::verdict::Verdict;
use bridge_io::Steps;
use bridge_text::NoMemory;
use pair_known::{HgRows, draft_near};
use pair_state::State;
use std::sync::ledger::Ledger;

/// Whether each block of a saved history is right: its commit is the partner of its changeset over the blocks before it, its links are those of the commit, and
/// the blobs of its files are the bodies of the changeset. Or the first block that isn't.
///
/// Nothing is taken for granted of whether both sides agree. Each file revision is compared with its blob once. A step is counted for each unmarking: at
/// most 18 for each block.
pub fn verify<L: Ledger>(state: &State, steps: &mut Steps<L>) -> Result<Verdict, NoMemory>
    requires saved { (m : saved.State) × IsState m × Stands state.now m }
    ensures holds { IfOk result (λ found. (m : saved.State) → IsState m → Stands state.now m → HoldsExactly state.now m → (n : ℕ)
        → (found ≡ verdict.Holds n) ↔ (StateHolds m × (n ≡ length m.blocks))) }
    ensures differs { IfOk result (λ found. (m : saved.State) → IsState m → Stands state.now m → HoldsExactly state.now m → (kept right : id.Id)
        → (found ≡ verdict.Differs kept right) ↔ StateDiffers m kept right) }
    ensures steps { (steps.old ≤ steps.new) × (steps.new ≤ steps.old + 18 * length state.now.blocks) }
{
    let known = state.known();
    let mut checked = Checked::none(state.alloc(), &known.hg)?;
    let mut near = HgRows::new(state.alloc());
    for place in 0..state.len() {
        let block = state.blocks().at(place);
        let h = draft_near(state.alloc(), known, &block.node, near.as_slice())?;
        match judge(state, place, block, &h, &checked, steps)? {
            Judgement::Right => checked.add(state, place)?,
            Judgement::Wrong(right) => {
                return Ok(Verdict::Differs {
                    kept: block.commit,
                    right,
                });
            }
        }
        near = h.into_rows();
    }
    Ok(Verdict::Holds(state.len() as u64))
}

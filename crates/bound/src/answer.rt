// The interference bound of a task, with an allowance of weighings (rule 12). Any table whatever is taken. Assumes nothing.
ghost use Rattle.std.specs.Prelude.{◌≡◌};
ghost use Rattle.model.specs.Refusals.{numbered};
ghost use Rattle.bound.specs.Answer.{answer};

use crate::draw::Drawing;
use crate::interference::Reach;
use crate::{Bound, Resources, SECTIONS, Sections, TASKS, sets, table};
use model::{Refusal, TaskNo};

// Rules 12.6 and 12.9 (`Answered.spent_is`, `Answered.answer_of_lem`).
pub fn bound(s: Sections, task: TaskNo, allowance: u32) -> Result<Bound, Refusal>
    ensures { numbered result ≡ answer s task.0 allowance }
{
    table::refusal(s, task, allowance)?;
    let t = task.0 as usize;
    let reach = Reach {
        b: sets::put([false; TASKS], t, true),
        left: s.tasks as usize - 1,
        depth: SECTIONS,
    };
    let found = Drawing::of(s)
        .interference_sum(reach, t, None, Resources::NONE, allowance)
        .ok_or(Refusal::AllowanceSpent)?;
    Ok(Bound {
        value: found.value,
        weighings: allowance - found.left,
    })
}

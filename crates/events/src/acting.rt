// Suspend, lock and unlock are what a task does itself: whether it does anything at the moment, and if not, why. Assumes nothing.
ghost use Rattle.std.specs.Prelude.{◌≡◌};
ghost use Rattle.laws.specs.Tests.{accepted, first_of};
ghost use Rattle.model.specs.Refusals.{numbered};
ghost use Rattle.model.specs.Step.{stalled};
ghost use Rattle.model.specs.Verdicts.{verdict};

use model::verdicts::refused_if;
use model::{Mode, Refusal, Task};

// 61, 62, 63.
pub fn stall(task: Task) -> Result<(), Refusal>
    ensures { numbered result ≡ verdict (first_of (stalled task accepted)) }
{
    match task.mode {
        Mode::Suspended => Err(Refusal::Suspended),
        Mode::Ready => refused_if(Refusal::NotServed, task.runs.is_none()),
        Mode::Waiting(_) => Err(Refusal::Waiting),
    }
}

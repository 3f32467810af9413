// The answer to an event that was not refused. Its change tells it, but for dispatch and preempt, which ask where the task that the server serves
// executes after rule H. Assumes that the numbers are in use.
ghost use Rattle.std.specs.Prelude.{◌≡◌, ◌<◌, eqb, if◌then◌else◌};
ghost use Rattle.model.specs.State.{placed, executor_number};
ghost use Rattle.step.specs.Computed.{answer_by, Within};

use model::entries::executor_in;
use model::{Answer, Event, ServerNo, State, Task, TaskNo};

// `executes` or `spins`, and the task served.
fn dispatched(task: Task, end: TaskNo, s: ServerNo) -> Answer
    ensures { result ≡ (if eqb (executor_number task.runs) s.0 then Answer.Executes end else Answer.Spins end) }
{
    let executor = executor_in(task.runs);
    if executor.0 == s.0 {
        Answer::Executes(end)
    } else {
        Answer::Spins(end)
    }
}

// 0 where the task executes nowhere; else 1 if it executed in the server before.
fn preempted(task: Task, told: Answer) -> Answer
    ensures { result ≡ (if placed task.runs then told else Answer.Ok 0) }
{
    if task.runs.is_some() {
        told
    } else {
        Answer::Ok(0)
    }
}

// `told` is the answer of the change, `after` the state after rule H, `ends` are the chain ends.
pub fn answered(told: Answer, after: State, ends: [TaskNo; 16], e: Event) -> Answer
    requires { Within ends e }
    ensures { result ≡ answer_by told after.task ends e }
{
    match e {
        Event::Dispatch(s) => {
            let end = ends[s.0 as usize];
            dispatched(after.task[end.0 as usize], end, s)
        }
        Event::Preempt(s) => {
            let end = ends[s.0 as usize];
            preempted(after.task[end.0 as usize], told)
        }
        Event::Wake(_)
        | Event::Suspend(_)
        | Event::Elapse(_)
        | Event::Recharge(_)
        | Event::Lock(_, _)
        | Event::Unlock(_, _) => told,
    }
}

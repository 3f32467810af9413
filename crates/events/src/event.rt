// Every event by its kind: the first test that refuses it, and its own change. Assumes nothing of a refusal; of a change that the state is sound and
// that no test refuses.
ghost use Rattle.std.specs.Prelude.{◌≡◌, ◌||◌};
ghost use Rattle.std.proofs.Math.Option.{some};
ghost use Rattle.laws.specs.Tests.{first_of};
ghost use Rattle.model.specs.Refusals.{numbered};
ghost use Rattle.model.specs.State.{task_at, in_use};
ghost use Rattle.model.specs.Events.{number_of};
ghost use Rattle.model.specs.Step.{tests, refusing};
ghost use Rattle.model.specs.Verdicts.{verdict};
ghost use Rattle.events.specs.Changes.{Clear, change_of};
ghost use Rattle.events.specs.Computed.{elapses};

use crate::Change;
use crate::locks::{lock_refusal, unlock_refusal};
use crate::servers::{
    dispatch_refusal, elapse_refusal, preempt_refusal, recharge_refusal, wake_refusal,
};
use crate::turning::Turn;
use model::entries::in_use;
use model::{Answer, Event, Phase, Refusal, State};

// The number of the task or the server that the event names. An elapse names none.
fn number_of(e: Event) -> u16
    ensures { result ≡ number_of e }
{
    match e {
        Event::Wake(t) | Event::Suspend(t) | Event::Lock(t, _) | Event::Unlock(t, _) => t.0,
        Event::Dispatch(s) | Event::Preempt(s) | Event::Recharge(s) => s.0,
        Event::Elapse(_) => 0,
    }
}

// Whether the event names no task and no server, or one in use.
fn names_in_use(tasks: u16, e: Event) -> bool
    ensures { result ≡ (elapses e || in_use tasks (number_of e)) }
{
    matches!(e, Event::Elapse(_)) || in_use(tasks, number_of(e) as usize)
}

// The first test that refuses the event, in the order of rule 10.2, if one does. Test 2 is the first of every event that names a number.
pub fn refusal(st: State, e: Event) -> Result<(), Refusal>
    ensures { numbered result ≡ verdict (first_of (tests st e)) }
{
    if !names_in_use(st.tasks, e) {
        return Err(Refusal::NoSuchTask);
    }
    match e {
        Event::Wake(t) => wake_refusal(st.task[t.0 as usize]),
        Event::Suspend(t) => crate::acting::stall(st.task[t.0 as usize]),
        Event::Dispatch(s) => dispatch_refusal(st, s, st.server[s.0 as usize]),
        Event::Preempt(s) => preempt_refusal(st.server[s.0 as usize]),
        Event::Elapse(n) => elapse_refusal(st, n),
        Event::Recharge(s) => recharge_refusal(st, s, st.server[s.0 as usize]),
        Event::Lock(t, r) => {
            if !in_use(st.resources, r as usize) {
                return Err(Refusal::NoSuchResource);
            }
            lock_refusal(st, t, r, st.task[t.0 as usize], st.resource[r as usize])
        }
        Event::Unlock(t, r) => {
            if !in_use(st.resources, r as usize) {
                return Err(Refusal::NoSuchResource);
            }
            unlock_refusal(t, r, st.task[t.0 as usize], st.resource[r as usize])
        }
    }
}

// The answer to an event that the test numbered n refuses: 62 names the resource that its task awaits.
pub fn refusing(st: State, e: Event, n: u16) -> Answer
    requires { first_of (tests st e) ≡ some n }
    ensures { result ≡ refusing (task_at st (number_of e)).mode n }
{
    if n != 62 {
        return Answer::Refused(n);
    }
    let task = st.task[number_of(e) as usize];
    Answer::RefusedWaiting(task.mode.awaited_no())
}

// The event's own change.
pub fn changed(st: State, e: Event) -> Change
    requires { Clear st e }
    ensures { result ≡ change_of st e }
{
    match e {
        Event::Wake(t) => crate::servers::turned(st, t, Turn::Wakes),
        Event::Suspend(t) => crate::servers::turned(st, t, Turn::Rests),
        Event::Dispatch(s) => crate::servers::phased(st, s, Phase::Running),
        Event::Preempt(s) => crate::servers::phased(st, s, Phase::Active),
        Event::Elapse(n) => crate::servers::elapsed(st, n),
        Event::Recharge(s) => crate::servers::recharged(st, s),
        Event::Lock(t, r) => crate::locks::locked(st, t, r),
        Event::Unlock(t, r) => crate::locks::unlocked(st, t, r),
    }
}

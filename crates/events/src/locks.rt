// Lock and unlock: the tests of each, and its change, which writes into the state that it is given. A change assumes a sound state that no test refuses
// the event: there stacks and queues have room, an owner has its resource on its stack, and the first of a queue has room on its own.
ghost use Rattle.std.specs.Prelude.{◌≡◌, true, eqb};
ghost use Rattle.laws.specs.Tests.{first_of};
ghost use Rattle.model.specs.State.{task_at, resource_at, here, present, served};
ghost use Rattle.model.specs.Refusals.{numbered};
ghost use Rattle.model.specs.Step.{tests};
ghost use Rattle.model.specs.Verdicts.{verdict};
ghost use Rattle.events.specs.Changes.{Clear, change_of};

use crate::Change;
use crate::turning::Turn;
use model::entries::{executor_in, in_set, owner_no};
use model::verdicts::refused_if;
use model::{Answer, Event, Mode, Refusal, Resource, State, Task, TaskNo};

// Whether the chain of the owner ends at t.
fn closes(st: State, owner: TaskNo, t: TaskNo) -> bool
    ensures { result ≡ eqb (served st owner.0) t.0 }
{
    chain::walk::chain_end(st, owner).0 == t.0
}

// 4, 61 to 63, 15, 16.
pub fn lock_refusal(
    st: State,
    t: TaskNo,
    r: u16,
    task: Task,
    resource: Resource,
) -> Result<(), Refusal>
    requires t_value { (here st t.0 ≡ true) × (present st r ≡ true) }
    requires task_value { (task ≡ task_at st t.0) × (resource ≡ resource_at st r) }
    ensures { numbered result ≡ verdict (first_of (tests st (Event.Lock t r))) }
{
    if !in_set(task.declared, r as usize) {
        return Err(Refusal::Undeclared);
    }
    crate::acting::stall(task)?;
    if owner_no(resource.owner) == t.0 as usize {
        return Err(Refusal::AlreadyHeld);
    }
    match resource.owner {
        None => Ok(()),
        Some(holder) => refused_if(Refusal::WouldDeadlock, closes(st, holder, t)),
    }
}

// 61 to 63, 17, 18.
pub fn unlock_refusal(t: TaskNo, r: u16, task: Task, resource: Resource) -> Result<(), Refusal>
    ensures { (st : State) → here st t.0 ≡ true → present st r ≡ true → task ≡ task_at st t.0 → resource ≡ resource_at st r → numbered result ≡ verdict (first_of (tests st (Event.Unlock t r))) }
{
    crate::acting::stall(task)?;
    if owner_no(resource.owner) != t.0 as usize {
        return Err(Refusal::NotOwned);
    }
    refused_if(Refusal::NotTop, crate::standing::top(task) != r)
}

// Rules 7.7 and 7.8. No chain changes after the task has joined the queue, so that the ends serve the servers at rest too.
pub fn locked(mut st: State, t: TaskNo, r: u16) -> Change
    requires { Clear st (Event.Lock t r) }
    ensures { result ≡ change_of st (Event.Lock t r) }
{
    let i = t.0 as usize;
    let j = r as usize;
    let task = st.task[i];
    let resource = st.resource[j];
    let acting = executor_in(task.runs);
    if resource.owner.is_none() {
        st.task[i] = crate::standing::pushed(r, task);
        st.resource[j] = resource.with_owner(Some(t));
        return Change {
            state: st,
            answer: Answer::Granted(r),
            ends: chain::walk::chain_ends(st),
            acting,
        };
    }
    st.task[i] = task.with_mode(Mode::Waiting(r));
    st.resource[j] = crate::standing::enqueued(t, resource);
    let ends = chain::walk::chain_ends(st);
    let end = ends[i];
    if st.task[end.0 as usize].mode.is_suspended() {
        let turned = crate::turning::turned_servers(st, ends, end, Turn::Rests);
        let servers = turned.server;
        st.server = servers;
    }
    Change {
        state: st,
        answer: Answer::Waits(end),
        ends,
        acting,
    }
}

// Rules 7.9 and 7.10.
pub fn unlocked(mut st: State, t: TaskNo, r: u16) -> Change
    requires { Clear st (Event.Unlock t r) }
    ensures { result ≡ change_of st (Event.Unlock t r) }
{
    let i = t.0 as usize;
    let j = r as usize;
    let task = st.task[i];
    let resource = st.resource[j];
    let acting = executor_in(task.runs);
    let popped = crate::standing::popped(task);
    if resource.waiting == 0 {
        st.task[i] = popped;
        st.resource[j] = resource.with_owner(None);
        return Change {
            state: st,
            answer: Answer::Freed(r),
            ends: chain::walk::chain_ends(st),
            acting,
        };
    }
    let heir = resource.queue[0];
    let h = heir.0 as usize;
    let waiter = st.task[h];
    st.task[i] = popped;
    st.task[h] = crate::standing::pushed(r, waiter.with_mode(Mode::Ready));
    st.resource[j] = crate::standing::dequeued(resource).with_owner(Some(heir));
    Change {
        state: st,
        answer: Answer::Passed(heir),
        ends: chain::walk::chain_ends(st),
        acting,
    }
}

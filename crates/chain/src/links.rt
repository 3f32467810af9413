// Who owns each resource, what each task waits for, and the links that these make (rule 3.1), as arrays. Entries that are not in use are not read.
// Assumes nothing.
ghost use Rattle.std.specs.Prelude.{◌≡◌, ◌<◌};
ghost use Rattle.chain.specs.Arrays.{owners_of, wanted, wanted_of};
ghost use Rattle.chain.specs.Computed.{numbers_of, at_or_nobody, link_at, links_by};
ghost use Rattle.model.specs.State.{owner_of};

use model::entries::in_use;
use model::{NOBODY, State, TaskNo};
use std::array;

// The owner of resource r if both are in use, else nobody.
#[tactic(auto, unfolding(model::specs::State::owner_of, model::specs::State::present, model::specs::State::here))]
fn owner_at(st: &State, r: usize) -> TaskNo
    requires { r < 16 }
    ensures { result ≡ record { 0 = owner_of st.now r } }
{
    if !in_use(st.resources, r) {
        return TaskNo(NOBODY);
    }
    match st.resource[r].owner {
        Some(t) if in_use(st.tasks, t.0 as usize) => t,
        _ => TaskNo(NOBODY),
    }
}

// The owner of each resource.
pub fn owners(st: State) -> [TaskNo; 16]
    ensures { result ≡ owners_of st }
{
    array::from_fn(|r| owner_at(&st, r))
}

// The resource that task t waits for, if it is in use.
#[tactic(auto, unfolding(crate::specs::Arrays::wanted, model::specs::State::here))]
fn wanted_at(st: &State, t: usize) -> u16
    requires { t < 16 }
    ensures { result ≡ wanted st.now t }
{
    if in_use(st.tasks, t) {
        st.task[t].mode.awaited_no()
    } else {
        NOBODY
    }
}

// The resource that each task waits for.
pub fn wanted(st: State) -> [u16; 16]
    ensures { result ≡ wanted_of st }
{
    array::from_fn(|t| wanted_at(&st, t))
}

// Tasks' numbers as plain numbers, which can be lent. By `from_fn`, here and below: `map` takes its array apart and three times the instructions.
pub fn numbers(tasks: [TaskNo; 16]) -> [u16; 16]
    ensures { result ≡ numbers_of tasks }
{
    array::from_fn(|i| tasks[i].0)
}

// What the array has at i, or nobody past its end.
#[tactic(auto, unfolding(crate::specs::Computed::at_or_nobody))]
pub fn at_or_nobody(xs: &[u16; 16], i: u16) -> u16
    ensures { result ≡ at_or_nobody xs.now i }
{
    if i < 16 { xs[i as usize] } else { NOBODY }
}

// Whom task t waits for.
#[tactic(auto, unfolding(crate::specs::Computed::link_at))]
fn link_at(owners: &[u16; 16], wants: &[u16; 16], t: usize) -> u16
    requires { t < 16 }
    ensures { result ≡ link_at owners.now wants.now t }
{
    at_or_nobody(owners, wants[t])
}

// The links: whom each task waits for.
pub(crate) fn links_by(owners: &[u16; 16], wants: &[u16; 16]) -> [u16; 16]
    ensures { result ≡ links_by owners.now wants.now }
{
    array::from_fn(|t| link_at(owners, wants, t))
}

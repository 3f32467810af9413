// What rule H and the soundness test take out of a state's servers: whom the Running ones serve, and what remains of each budget. Entries that are not
// in use are not read. Assumes nothing.
ghost use Rattle.std.specs.Prelude.{◌≡◌, ◌<◌};
ghost use Rattle.chain.specs.Arrays.{on_at, on_by, budget_in, budgets_of};

use model::entries::in_use;
use model::{NOBODY, Server, TaskNo};
use std::array;

// The task that server s serves, if it is in use and Running.
#[tactic(auto, unfolding(crate::specs::Arrays::on_at))]
fn running_at(servers: &[Server; 16], count: u16, ends: &[TaskNo; 16], s: usize) -> TaskNo
    requires { s < 16 }
    ensures { result ≡ record { 0 = on_at servers.now count ends.now s } }
{
    if in_use(count, s) && servers[s].phase.is_running() {
        ends[s]
    } else {
        TaskNo(NOBODY)
    }
}

// The task that each server serves while it is Running, or nobody.
pub fn running_for(servers: [Server; 16], count: u16, ends: [TaskNo; 16]) -> [TaskNo; 16]
    ensures { result ≡ on_by servers count ends }
{
    array::from_fn(|s| running_at(&servers, count, &ends, s))
}

// What remains of the budget of server s, if it is in use.
#[tactic(auto, unfolding(crate::specs::Arrays::budget_in))]
fn budget_at(servers: &[Server; 16], count: u16, s: usize) -> u32
    requires { s < 16 }
    ensures { result ≡ budget_in servers.now count s }
{
    if in_use(count, s) {
        servers[s].budget
    } else {
        0
    }
}

// What remains of each budget, 0 where the number is not in use.
pub fn budgets(servers: [Server; 16], count: u16) -> [u32; 16]
    ensures { result ≡ budgets_of servers count }
{
    array::from_fn(|s| budget_at(&servers, count, s))
}

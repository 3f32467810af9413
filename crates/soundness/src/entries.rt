// One task, one resource, one server: whether its entry passes, as specs/Computed.antt says. Sums are made in 64 bits. Assumes nothing.
ghost use Rattle.std.specs.Prelude.{◌≡◌, ◌≤◌};
ghost use Rattle.soundness.specs.Computed.{wait_passes, task_passes, owner_passes, resource_passes, server_fits, serves_passes, server_passes, executes_passes};

use crate::lists::members_fit;
use chain::links::{at_or_nobody, numbers};
use model::entries::{in_set, in_use};
use model::limits::{declared_fits, quota_fits};
use model::{Mode, Phase, Resource, Server, ServerNo, Task, TaskNo};

// A set with every resource, since a queue has no set.
const EVERY_BIT: u16 = 65535;

// A resource that is waited for is in use and declared (rules 4.7 and 4.11).
fn wait_passes(resources: u16, declared: u16, mode: Mode) -> bool
    ensures { result ≡ wait_passes resources declared mode }
{
    match mode {
        Mode::Waiting(r) => in_use(resources, r as usize) && in_set(declared, r as usize),
        Mode::Suspended | Mode::Ready => true,
    }
}

#[tactic(auto, unfolding(crate::specs::Computed::task_passes))]
pub fn task_passes(resources: u16, clock: u32, owners: &[u16; 16], t: u16, task: &Task) -> bool
    requires { resources ≤ 16 }
    ensures { result ≡ task_passes resources clock owners.now t task.now }
{
    task.executed <= clock
        && declared_fits(resources, task.declared)
        && wait_passes(resources, task.declared, task.mode)
        && members_fit(&task.held, task.depth, task.declared, owners, t)
}

// A resource with an owner has one in use, one without has no queue (rules 4.7 and 4.10).
fn owner_passes(in_force: u16, waiting: u16, owner: Option<TaskNo>) -> bool
    ensures { result ≡ owner_passes in_force waiting owner }
{
    match owner {
        None => waiting == 0,
        Some(_) => in_force < 16,
    }
}

#[tactic(auto, unfolding(crate::specs::Computed::resource_passes))]
pub fn resource_passes(in_force: u16, wants: &[u16; 16], r: u16, resource: &Resource) -> bool
    ensures { result ≡ resource_passes in_force wants.now r resource.now }
{
    owner_passes(in_force, resource.waiting, resource.owner)
        && members_fit(
            &numbers(resource.queue),
            resource.waiting,
            EVERY_BIT,
            wants,
            r,
        )
}

// A server's own numbers: rules 1.4, 4.3 to 4.5 and 4.16.
fn server_fits(clock: u32, server: &Server) -> bool
    ensures { result ≡ server_fits clock server.now }
{
    let time = u64::from(clock);
    let latest = time + u64::from(server.period);
    let spent = u64::from(server.own) + u64::from(server.lent) + u64::from(server.spin);
    quota_fits(server.quota, server.period)
        && u64::from(server.deadline) <= latest
        && server.budget <= server.quota
        && (server.budget == 0) == server.phase.is_recharging()
        && spent <= time
}

// The phase of a server against the mode and place of the task that it serves (rules 4.13 and 4.15).
fn serves_passes(phase: Phase, mode: Mode, runs: Option<ServerNo>) -> bool
    ensures { result ≡ serves_passes phase mode runs }
{
    let asleep = mode.is_suspended();
    match phase {
        Phase::Idle => asleep,
        Phase::Active => !asleep,
        Phase::Running => runs.is_some() && !asleep,
        Phase::Recharging => true,
    }
}

// A server with the end of its chain: `link` leads on from there where the chain closes (rule 4.12), `last` is the task that it serves.
#[tactic(auto, unfolding(crate::specs::Computed::server_passes))]
pub fn server_passes(clock: u32, server: &Server, link: u16, last: &Task) -> bool
    ensures { result ≡ server_passes clock server.now link last.now }
{
    server_fits(clock, server) && link >= 16 && serves_passes(server.phase, last.mode, last.runs)
}

// The server in which task t executes, if any, runs for it (rule 4.14).
pub fn executes_passes(runs_by: &[u16; 16], t: u16, runs: Option<ServerNo>) -> bool
    ensures { result ≡ executes_passes runs_by.now t runs }
{
    match runs {
        None => true,
        Some(s) => at_or_nobody(runs_by, s.0) == t,
    }
}

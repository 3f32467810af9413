// What n ticks make of servers and tasks, by who executes when they begin. Entries that are not in use are not read.
// Assumes that the budgets of Running servers last and that the accounts fit, which refusal 12 and soundness say.
ghost use Rattle.std.specs.Prelude.{◌≡◌, true, ◌&&◌, ◌+◌, ◌-◌, ◌<◌, ◌≤◌, leb, eqb, if◌then◌else◌};
ghost use Rattle.laws.specs.Tests.{◌implies◌};
ghost use Rattle.model.specs.State.{running};
ghost use Rattle.model.specs.Sound.{each, if_here, sound};
ghost use Rattle.model.specs.Step.{affords};
ghost use Rattle.chain.specs.Arrays.{ends_of};
ghost use Rattle.events.specs.Computed.{spent_by, spent_servers, ticked_by, ticked_tasks};

use crate::turning::Turned;
use model::entries::{executor_in, in_use};
use model::{Phase, Server, State, Task, TaskNo};

// Whether a server has the budget for n ticks, if it runs.
fn affords_ticks(server: Server, n: u32) -> bool
    ensures { result ≡ (running server.phase implies leb n server.budget) }
{
    !server.phase.is_running() || n <= server.budget
}

// Server s, if it is in use.
#[tactic(auto, unfolding(model::specs::Sound::if_here, model::specs::Step::affords, model::specs::State::here, model::specs::State::running_at))]
fn affords_at(st: &State, n: u32, s: usize) -> bool
    requires { s < 16 }
    ensures { result ≡ if_here st.now (affords st.now n) s }
{
    !in_use(st.tasks, s) || affords_ticks(st.server[s], n)
}

// Whether every Running server has the budget for n ticks.
pub fn all_afford(st: State, n: u32) -> bool
    ensures { result ≡ each st (affords st n) }
{
    (0..16).all(|s| affords_at(&st, n, s))
}

// Whether the server runs and n ticks are all that it has left.
fn runs_out(server: Server, n: u32) -> bool
    ensures { result ≡ (running server.phase && eqb server.budget n) }
{
    server.phase.is_running() && server.budget == n
}

fn ticks_if(b: bool, n: u32) -> u32
    ensures value { result ≡ (if b then n else 0) }
    ensures upper_bound { result ≤ n }
{
    if b { n } else { 0 }
}

fn phase_after(out: bool, phase: Phase) -> Phase
    ensures { result ≡ (if out then Phase.Recharging else phase) }
{
    if out { Phase::Recharging } else { phase }
}

fn budget_after(runs: bool, budget: u32, n: u32) -> u32
    requires { runs ≡ true → n ≤ budget }
    ensures { result ≡ (if runs then budget - n else budget) }
{
    if runs { budget - n } else { budget }
}

// One server after n ticks, in which it executes the task that it serves or not, and that task is its own or not.
fn spent_server(server: Server, n: u32, executes: bool, home: bool) -> Server
    requires n_le_budget { running server.phase ≡ true → n ≤ server.budget }
    requires n_bound { server.own + server.lent + server.spin + n ≤ 4000000000 }
    ensures { result ≡ spent_by n executes home server }
{
    let runs = server.phase.is_running();
    let own = ticks_if(executes & home, n);
    let lent = ticks_if(executes & !home, n);
    let spin = ticks_if(runs & !executes, n);
    Server {
        phase: phase_after(runs_out(server, n), server.phase),
        budget: budget_after(runs, server.budget, n),
        own: server.own + own,
        lent: server.lent + lent,
        spin: server.spin + spin,
        ..server
    }
}

// All servers after n ticks, and how many ran out.
pub fn spent_servers(st: State, ends: [TaskNo; 16], n: u32) -> Turned
    requires ends_value { ends ≡ ends_of st }
    requires st_value { sound st ≡ true }
    requires n_bound { st.clock + n ≤ 4000000000 }
    requires n_value { each st (affords st n) ≡ true }
    ensures { result ≡ spent_servers st n }
{
    let before = st.server;
    let mut servers = before;
    let mut count: u16 = 0;
    // by number, which tells a server's own task
    for s in 0..16usize {
        if in_use(st.tasks, s) {
            let server = before[s];
            let end = ends[s].0 as usize;
            let executor = executor_in(st.task[end].runs);
            let executes = server.phase.is_running() & (executor.0 as usize == s);
            servers[s] = spent_server(server, n, executes, end == s);
            count += u16::from(runs_out(server, n));
        }
    }
    Turned {
        server: servers,
        count,
    }
}

// One task after n ticks, in which it executes or not.
fn ticked_task(task: Task, n: u32) -> Task
    requires { task.executed + n ≤ 4000000000 }
    ensures { result ≡ ticked_by n task }
{
    let ticks = ticks_if(task.runs.is_some(), n);
    Task {
        executed: task.executed + ticks,
        ..task
    }
}

// All tasks after n ticks.
pub fn ticked_tasks(st: State, n: u32) -> [Task; 16]
    requires st_value { sound st ≡ true }
    requires n_bound { st.clock + n ≤ 4000000000 }
    ensures { result ≡ ticked_tasks st n }
{
    let before = st.task;
    let mut ticked = before;
    // by number, by which a task is in use or not; the others stay as they are
    for t in 0..16usize {
        if in_use(st.tasks, t) {
            ticked[t] = ticked_task(before[t], n);
        }
    }
    ticked
}

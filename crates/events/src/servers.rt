// Wake, suspend, dispatch, preempt, elapse, recharge: the tests of each, but suspend's, which stand in `acting`, and its change. A change writes into the
// state that it is given: copies of a state are what a step spends most on. None of these events changes a chain. A change assumes a sound state that no
// test refuses the event: `Clear` stays a clause, since `event::changed`, which is named with it among the contracts, takes a state and an event.
ghost use Rattle.std.specs.Prelude.{◌≡◌, ◌||◌, true, not, eqb, ltb, if◌then◌else◌};
ghost use Rattle.laws.specs.Tests.{first_of};
ghost use Rattle.model.specs.State.{server_at, here, running, suspended};
ghost use Rattle.model.specs.Refusals.{numbered};
ghost use Rattle.model.specs.Step.{tests};
ghost use Rattle.model.specs.Verdicts.{verdict, refused_if};
ghost use Rattle.events.specs.Changes.{Clear, change_of, phased_change};
ghost use Rattle.events.specs.Computed.{turn_of};

use crate::Change;
use crate::turning::Turn;
use model::entries::executor_in;
use model::verdicts::refused_if;
use model::{
    Answer, CLOCK_LIMIT, Event, LONGEST, Mode, NOBODY, Phase, Refusal, Server, ServerNo, State,
    Task, TaskNo,
};

// 5.
#[tactic(auto, using(model::proofs::Refused::told_if))]
pub fn wake_refusal(task: Task) -> Result<(), Refusal>
    ensures { numbered result ≡ refused_if 5 (not (suspended task.mode)) }
{
    refused_if(Refusal::NotSuspended, !task.mode.is_suspended())
}

// 7, 8.
pub fn dispatch_refusal(st: State, s: ServerNo, server: Server) -> Result<(), Refusal>
    requires { (here st s.0 ≡ true) × (server ≡ server_at st s.0) }
    ensures { numbered result ≡ verdict (first_of (tests st (Event.Dispatch s))) }
{
    if !server.phase.is_active() {
        return Err(Refusal::NotActive);
    }
    refused_if(
        Refusal::NoProcessor,
        st.processors <= crate::running::running_count(st),
    )
}

// 9.
#[tactic(auto, using(model::proofs::Refused::told_if))]
pub fn preempt_refusal(server: Server) -> Result<(), Refusal>
    ensures { numbered result ≡ refused_if 9 (not (running server.phase)) }
{
    refused_if(Refusal::NotRunning, !server.phase.is_running())
}

fn is_out_of_range(n: u32) -> bool
    ensures { result ≡ (eqb n 0 || ltb 1000000 n) }
{
    n == 0 || LONGEST < n
}

// 10, 11, 12. The sum is made in 64 bits, in which it fits whatever the state.
pub fn elapse_refusal(st: State, n: u32) -> Result<(), Refusal>
    ensures { numbered result ≡ verdict (first_of (tests st (Event.Elapse n))) }
{
    if is_out_of_range(n) {
        return Err(Refusal::TicksOutOfRange);
    }
    if u64::from(CLOCK_LIMIT) < u64::from(st.clock) + u64::from(n) {
        return Err(Refusal::ClockLimit);
    }
    refused_if(Refusal::PastBudget, !crate::spending::all_afford(st, n))
}

// 13, 14.
pub fn recharge_refusal(st: State, s: ServerNo, server: Server) -> Result<(), Refusal>
    requires { (here st s.0 ≡ true) × (server ≡ server_at st s.0) }
    ensures { numbered result ≡ verdict (first_of (tests st (Event.Recharge s))) }
{
    if !server.phase.is_recharging() {
        return Err(Refusal::NotRecharging);
    }
    refused_if(Refusal::BeforeDeadline, st.clock < server.deadline)
}

// Wake and suspend (rules 7.1, 7.2): the servers that serve the task turn, and the task is ready or suspended.
pub fn turned(mut st: State, t: TaskNo, turn: Turn) -> Change
    requires { Clear st (turn_of turn t) }
    ensures { result ≡ change_of st (turn_of turn t) }
{
    let i = t.0 as usize;
    let ends = chain::walk::chain_ends(st);
    let turned = crate::turning::turned_servers(st, ends, t, turn);
    let servers = turned.server;
    st.server = servers;
    st.task[i] = st.task[i].with_mode(turn.mode_after());
    Change {
        state: st,
        answer: Answer::Ok(turned.count),
        ends,
        acting: ServerNo(NOBODY),
    }
}

// Dispatch and preempt (rules 7.3, 7.4): the server is in another phase.
pub fn phased(mut st: State, s: ServerNo, phase: Phase) -> Change
    requires { here st s.0 ≡ true }
    ensures { result ≡ phased_change phase st s.0 }
{
    let i = s.0 as usize;
    let ends = chain::walk::chain_ends(st);
    let end = ends[i];
    let executor = executor_in(st.task[end.0 as usize].runs);
    st.server[i] = st.server[i].with_phase(phase);
    Change {
        state: st,
        answer: Answer::Ok(u16::from(executor.0 == s.0)),
        ends,
        acting: ServerNo(NOBODY),
    }
}

// Elapse (rules 7.5, 8.1): all servers spend by who executes before, and only then is anything written.
pub fn elapsed(mut st: State, n: u32) -> Change
    requires { Clear st (Event.Elapse n) }
    ensures { result ≡ change_of st (Event.Elapse n) }
{
    let clock = st.clock + n;
    let ends = chain::walk::chain_ends(st);
    let spent = crate::spending::spent_servers(st, ends, n);
    let servers = spent.server;
    let tasks = crate::spending::ticked_tasks(st, n);
    st.clock = clock;
    st.server = servers;
    st.task = tasks;
    Change {
        state: st,
        answer: Answer::Ok(spent.count),
        ends,
        acting: ServerNo(NOBODY),
    }
}

// By the mode of the task that the server serves.
fn recharged_phase(mode: Mode) -> Phase
    ensures { result ≡ (if suspended mode then Phase.Idle else Phase.Active) }
{
    if mode.is_suspended() {
        Phase::Idle
    } else {
        Phase::Active
    }
}

// Recharge (rule 7.6).
pub fn recharged(mut st: State, s: ServerNo) -> Change
    requires { Clear st (Event.Recharge s) }
    ensures { result ≡ change_of st (Event.Recharge s) }
{
    let i = s.0 as usize;
    let ends = chain::walk::chain_ends(st);
    let end = ends[i];
    let phase = recharged_phase(st.task[end.0 as usize].mode);
    st.server[i] = crate::turning::refilled(st.server[i], phase, st.clock);
    Change {
        state: st,
        answer: Answer::Ok(u16::from(st.server[i].phase.is_active())),
        ends,
        acting: ServerNo(NOBODY),
    }
}

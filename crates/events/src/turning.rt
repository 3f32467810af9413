// What becomes of the servers that serve a task when it wakes or comes to rest, and how many change. Servers that are not in use are not read.
// Assumes that the chain ends are the state's, and that a woken server's deadline fits.
ghost use Rattle.std.specs.Prelude.{◌≡◌, true, ℕ, ◌&&◌, ◌+◌, ◌<◌, eqb, if◌then◌else◌};
ghost use Rattle.model.specs.State.{here, server_at};
ghost use Rattle.model.specs.Events.{refilled};
ghost use Rattle.chain.specs.Arrays.{ends_of};
ghost use Rattle.events.specs.Computed.{concerns, turned, Timely, turned_servers, mode_after};

use model::entries::in_use;
use model::{Mode, Phase, Server, State, TaskNo};

// Idle servers become Active, refilled; Active and Running ones become Idle. An enum and no closures for the two steps: `turn_of`, by which `turned` and its
// callers say which event it is, and the deadline that only a wake asks for (`Timely`) go by it.
#[derive(Clone, Copy)]
pub enum Turn {
    Wakes,
    Rests,
}

// All servers after a change, and how many turned.
#[derive(Clone, Copy)]
pub struct Turned {
    pub server: [Server; 16],
    pub count: u16,
}

impl Turn {
    // Whether the turn is for servers in this phase.
    fn concerns(self, phase: Phase) -> bool
        ensures { result ≡ concerns self phase }
    {
        match self {
            Turn::Wakes => phase.is_idle(),
            Turn::Rests => phase.is_active() || phase.is_running(),
        }
    }

    // What the task itself becomes.
    pub(crate) fn mode_after(self) -> Mode
        ensures { result ≡ mode_after self }
    {
        match self {
            Turn::Wakes => Mode::Ready,
            Turn::Rests => Mode::Suspended,
        }
    }
}

// Whether a server in this phase, which serves `end`, turns with the task.
fn is_turning(turn: Turn, phase: Phase, end: TaskNo, task: TaskNo) -> bool
    ensures { result ≡ (concerns turn phase && eqb end.0 task.0) }
{
    turn.concerns(phase) && end.0 == task.0
}

// With a full budget, and the deadline one period from now.
pub fn refilled(server: Server, phase: Phase, clock: u32) -> Server
    requires { clock + server.period < 4294967296 }
    ensures { result ≡ refilled phase clock server }
{
    Server {
        phase,
        budget: server.quota,
        deadline: clock + server.period,
        ..server
    }
}

// The server after the turn, if it is one of those that turn.
fn turned_if(turns: bool, turn: Turn, server: Server, clock: u32) -> Server
    requires { Timely turn (clock + server.period) }
    ensures { result ≡ (if turns then turned turn clock server else server) }
{
    if turns {
        match turn {
            Turn::Wakes => refilled(server, Phase::Active, clock),
            Turn::Rests => server.with_phase(Phase::Idle),
        }
    } else {
        server
    }
}

// All servers after the turn of those that serve the task, and how many turned.
pub fn turned_servers(st: State, ends: [TaskNo; 16], task: TaskNo, turn: Turn) -> Turned
    requires ends_value { ends ≡ ends_of st }
    requires by_index { (i : ℕ) → here st i ≡ true → Timely turn (st.clock + (server_at st i).period) }
    ensures { result ≡ turned_servers turn st task.0 }
{
    let before = st.server;
    let mut servers = before;
    let mut count: u16 = 0;
    // by number, since whom a server serves stands in another array and the turns are counted
    for s in 0..16usize {
        if in_use(st.tasks, s) {
            let server = before[s];
            let turns = is_turning(turn, server.phase, ends[s], task);
            servers[s] = turned_if(turns, turn, server, st.clock);
            count += u16::from(turns);
        }
    }
    Turned {
        server: servers,
        count,
    }
}

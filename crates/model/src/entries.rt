// What an entry of the state says, as specs/State.antt defines it: the tests and numbers that the crates above read off counts, phases, modes and owners.
// A number that is nobody's is `NOBODY`: arrays of numbers, which the chain and the soundness test are made of, have it where an Option has None. Assumes
// nothing.
ghost use Rattle.std.specs.Prelude.{◌≡◌};
ghost use Rattle.model.specs.State.{in_use, in_set, idle, active, running, recharging, suspended, awaited, owner_no, executor_number};

use crate::{Mode, NOBODY, Phase, ServerNo, TaskNo};

// Whether i has a place and is below the count.
pub fn in_use(count: u16, i: usize) -> bool
    ensures { result ≡ in_use count i }
{
    i < 16 && i < count as usize
}

// Whether the declared set has resource r.
pub fn in_set(declared: u16, r: usize) -> bool
    ensures { result ≡ in_set declared r }
{
    r < 16 && (declared >> r) % 2 == 1
}

impl Phase {
    pub fn is_idle(self) -> bool
        ensures { result ≡ idle self }
    {
        self == Phase::Idle
    }

    pub fn is_active(self) -> bool
        ensures { result ≡ active self }
    {
        self == Phase::Active
    }

    pub fn is_running(self) -> bool
        ensures { result ≡ running self }
    {
        self == Phase::Running
    }

    pub fn is_recharging(self) -> bool
        ensures { result ≡ recharging self }
    {
        self == Phase::Recharging
    }
}

impl Mode {
    pub fn is_suspended(self) -> bool
        ensures { result ≡ suspended self }
    {
        self == Mode::Suspended
    }

    // The resource that a task in this mode waits for, or nobody.
    pub fn awaited_no(self) -> u16
        ensures { result ≡ awaited self }
    {
        if let Mode::Waiting(r) = self {
            r
        } else {
            NOBODY
        }
    }
}

pub fn owner_no(owner: Option<TaskNo>) -> usize
    ensures { result ≡ owner_no owner }
{
    owner.map_or(NOBODY as usize, |t| t.0 as usize)
}

// The server in which the task executes, or nobody.
pub fn executor_in(runs: Option<ServerNo>) -> ServerNo
    ensures { result ≡ record { 0 = executor_number runs } }
{
    runs.unwrap_or(ServerNo(NOBODY))
}

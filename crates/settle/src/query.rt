// What a server is doing, so that nobody computes rule H again by hand. Assumes nothing.
ghost use Rattle.std.specs.Prelude.{◌≡◌};
ghost use Rattle.settle.specs.Doing.{doing, said_doing};

use crate::Doing;
use model::entries::{executor_in, in_use};
use model::{ServerNo, State, TaskNo};

// Server s executes the task that it serves, spins for it, or is not Running (nor is a number that is not in use).
pub fn doing(st: State, s: ServerNo) -> Doing
    ensures value { result ≡ doing st s.0 }
    ensures said { said_doing result ≡ said_doing (doing st s.0) }
{
    let i = s.0 as usize;
    if !in_use(st.tasks, i) {
        return Doing::NotRunning;
    }
    if !st.server[i].phase.is_running() {
        return Doing::NotRunning;
    }
    let end = chain::walk::chain_end(st, TaskNo(s.0));
    let executor = executor_in(st.task[end.0 as usize].runs);
    if executor.0 == s.0 {
        Doing::Executes(end)
    } else {
        Doing::Spins(end)
    }
}

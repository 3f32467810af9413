// Rule H: whom each Running server serves and what remains of each budget are taken out of the state once, and only the executors are written back.
// A number that is nobody's is 16. Entries that are not in use are not read. Assumes that the chain ends are the state's.
ghost use Rattle.std.specs.Prelude.{◌≡◌, ◌<◌};
ghost use Rattle.model.specs.RuleH.{runs_in, settled};
ghost use Rattle.chain.specs.Arrays.{ends_of};
ghost use Rattle.settle.specs.Computed.{serves_by, better_by, bests_by, executor_in};

use model::entries::{executor_in, in_use};
use model::{NOBODY, ServerNo, State, TaskNo};

// Whether s is a Running server that serves t.
#[tactic(auto, unfolding(crate::specs::Computed::serves_by))]
fn serves(on: &[TaskNo; 16], t: usize, s: ServerNo) -> bool
    ensures { result ≡ serves_by on.now t s.0 }
{
    s.0 < 16 && on[s.0 as usize].0 as usize == t
}

// The better of server s and the best so far, which is 16 while there is none: more budget, and in a tie the one before.
#[tactic(auto, unfolding(crate::specs::Computed::better_by))]
fn better(budgets: &[u32; 16], s: usize, best: ServerNo) -> ServerNo
    requires { s < 16 }
    ensures { result ≡ record { 0 = better_by budgets.now s best.0 } }
{
    let b = best.0 as usize;
    if b >= 16 || budgets[b] < budgets[s] {
        ServerNo(s as u16)
    } else {
        best
    }
}

// Rule 6.3 for all tasks in one pass over the servers. The turns go by the server's number, which is what is stored.
fn bests(on: &[TaskNo; 16], budgets: &[u32; 16]) -> [ServerNo; 16]
    ensures { result ≡ bests_by on.now budgets.now }
{
    let mut xs = [ServerNo(NOBODY); 16];
    for s in 0..16usize {
        let t = on[s].0 as usize;
        if t < 16 {
            xs[t] = better(budgets, s, xs[t]);
        }
    }
    xs
}

// Rule H for task t, where `most` is the server of rule 6.3.
#[tactic(auto, unfolding(crate::specs::Computed::executor_in))]
fn executor(
    on: &[TaskNo; 16],
    before: ServerNo,
    acting: ServerNo,
    most: ServerNo,
    t: usize,
) -> ServerNo
    ensures { result ≡ record { 0 = executor_in on.now before.0 acting.0 most.0 t } }
{
    // rule 6.1
    if serves(on, t, before) {
        return before;
    }
    // rule 6.2
    if serves(on, t, acting) {
        return acting;
    }
    // rule 6.3
    most
}

#[tactic(auto, unfolding(model::specs::RuleH::runs_in))]
fn runs_in(s: ServerNo) -> Option<ServerNo>
    ensures { result ≡ runs_in s.0 }
{
    if s.0 < 16 { Some(s) } else { None }
}

// The state after rule H: `acting` is the server that executes the task that locked or unlocked, or nobody, `ends` are the chain ends. No event's own
// change says anew where a task executes, so that who executed before is what the changed state says.
// It writes into the state that it is given: a copy of it would be a third of its time. The turns go by the task's number, which rule H asks for.
pub fn settled(acting: ServerNo, ends: [TaskNo; 16], mut st: State) -> State
    requires { ends ≡ ends_of st }
    ensures { result ≡ settled st acting.0 st }
{
    let count = st.tasks;
    let on = chain::servers::running_for(st.server, count, ends);
    let left = chain::servers::budgets(st.server, count);
    let best = bests(&on, &left);
    for t in 0..16usize {
        if in_use(count, t) {
            let task = st.task[t];
            let s = executor(&on, executor_in(task.runs), acting, best[t], t);
            st.task[t] = task.with_runs(runs_in(s));
        }
    }
    st
}

// The fresh state of a table and its refusals 19 to 21, in the order of rule 5.4. Lines past the table's tasks are not read. Assumes nothing.
ghost use Rattle.std.specs.Prelude.{◌≡◌, ◌≤◌};
ghost use Rattle.model.specs.Fresh.{entry_refusal, fresh_refusal, fresh_server, fresh_task, fresh_state, fresh_of};
ghost use Rattle.model.specs.Refusals.{numbered};
ghost use Rattle.model.specs.Said.{said_fresh};
ghost use Rattle.model.specs.Verdicts.{verdict};
ghost use Rattle.fresh.specs.Start.{fresh_says};

use model::blank::{blank_server, blank_task, unusable_state};
use model::limits::{counts_fit, declared_fits, quota_fits};
use model::{Entry, FreshOutcome, Refusal, Server, State, Table, Task};

// A server in use (rule 5.2).
fn fresh_server(entry: &Entry) -> Server
    ensures { result ≡ fresh_server entry.now }
{
    Server {
        budget: entry.quota,
        quota: entry.quota,
        period: entry.period,
        ..blank_server()
    }
}

// A task in use (rule 5.2).
fn fresh_task(entry: &Entry) -> Task
    ensures { result ≡ fresh_task entry.now }
{
    Task {
        declared: entry.declared,
        ..blank_task()
    }
}

// The state of a table that is not refused. The entries in use alone are made, since the others are blank in the state of no use: all sixteen by `from_fn`
// took a third more time, and a replay starts with a fresh for each line of its table.
fn fresh_state(tb: &Table) -> State
    ensures { result ≡ fresh_state tb.now }
{
    let mut state = State {
        processors: tb.processors,
        tasks: tb.tasks,
        resources: tb.resources,
        ..unusable_state()
    };
    for (i, entry) in tb.entry[..usize::from(tb.tasks).min(16)].iter().enumerate() {
        state.server[i] = fresh_server(entry);
        state.task[i] = fresh_task(entry);
    }
    state
}

// One line of the table: 20 before 21.
#[tactic(auto, unfolding(model::specs::Fresh::entry_refusal, laws::specs::Tests::first_of))]
fn entry_test(resources: u16, entry: Entry) -> Result<(), Refusal>
    requires { resources ≤ 16 }
    ensures { numbered result ≡ verdict (entry_refusal resources entry) }
{
    if !quota_fits(entry.quota, entry.period) {
        return Err(Refusal::BadReservation);
    }
    if !declared_fits(resources, entry.declared) {
        return Err(Refusal::BadDeclaration);
    }
    Ok(())
}

// The counts first, then task by task.
fn table_test(tb: Table) -> Result<(), Refusal>
    ensures { numbered result ≡ verdict (fresh_refusal tb) }
{
    if !counts_fit(tb.processors, tb.tasks, tb.resources) {
        return Err(Refusal::BadCounts);
    }
    for entry in &tb.entry[..tb.tasks as usize] {
        entry_test(tb.resources, *entry)?;
    }
    Ok(())
}

// The fresh state of a table, or its refusal and the state of no use (rule 5.5).
pub fn fresh(tb: Table) -> FreshOutcome
    ensures answer { numbered result.answer ≡ (fresh_of tb).answer }
    ensures state { result.state ≡ (fresh_of tb).state }
    ensures says { said_fresh (numbered result.answer) ≡ fresh_says (fresh_refusal tb) }
{
    let answer = table_test(tb);
    // as the value of an `if` the state would be copied once more
    if answer.is_err() {
        return FreshOutcome {
            answer,
            state: unusable_state(),
        };
    }
    FreshOutcome {
        answer,
        state: fresh_state(&tb),
    }
}

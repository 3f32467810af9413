// The types of the machine: numbers, state, events, answers and tables (rules 1 and 2). A state goes in by value and comes back by value.
// Widths are chosen for size (ticks and accounts 32 bits, numbers the 16 bits of a trace's operands); to the specs each is a number.
// There are sixteen places for tasks, servers and resources; entries from the count on are not in use (rule 1.7). Arrays stand beside counts since memory is
// fixed, with no heap, and since a place that is given up is 0 (rule 2.6): the whole array is what a state is, and what its bytes show. Assumes nothing.
#![tactic(auto)]

// The number of a task, the paper's tau (rule 1.2).
#[derive(Clone, Copy, PartialEq, Eq)]
pub struct TaskNo(pub u16);

// The number of a server, the paper's S (rule 1.2).
#[derive(Clone, Copy, PartialEq, Eq)]
pub struct ServerNo(pub u16);

// Rule 2.1.
#[derive(Clone, Copy, PartialEq, Eq)]
pub enum Phase {
    Idle,
    Active,
    Running,
    Recharging,
}

// A reservation (rules 1.4, 2.1, 8.1): `quota` is its budget Q every `period` P; `budget` is what remains. Ticks executing its own task, another's, spinning.
#[derive(Clone, Copy)]
pub struct Server {
    pub phase: Phase,
    pub budget: u32,
    pub deadline: u32,
    pub quota: u32,
    pub period: u32,
    pub own: u32,
    pub lent: u32,
    pub spin: u32,
}

// Rule 2.2.
#[derive(Clone, Copy, PartialEq, Eq)]
pub enum Mode {
    Suspended,
    Ready,
    // for the resource with this number
    Waiting(u16),
}

// Rules 1.6, 2.3, 2.5: `declared` has bit r for resource r; the resources it holds are the first `depth` places of `held`, the latest last; it runs in a server or
// in none.
#[derive(Clone, Copy)]
pub struct Task {
    pub mode: Mode,
    pub runs: Option<ServerNo>,
    pub declared: u16,
    pub depth: u16,
    pub executed: u32,
    pub held: [u16; 16],
}

// Rule 2.4: the tasks that wait for it are the first `waiting` places of `queue`, the first come first.
#[derive(Clone, Copy)]
pub struct Resource {
    pub owner: Option<TaskNo>,
    pub waiting: u16,
    pub queue: [TaskNo; 16],
}

#[derive(Clone, Copy)]
pub struct State {
    pub processors: u16,
    pub tasks: u16,
    pub resources: u16,
    pub clock: u32,
    pub server: [Server; 16],
    pub task: [Task; 16],
    pub resource: [Resource; 16],
}

// Rules 7.1 to 7.10.
#[derive(Clone, Copy)]
pub enum Event {
    Wake(TaskNo),
    Suspend(TaskNo),
    Dispatch(ServerNo),
    Preempt(ServerNo),
    Elapse(u32),
    Recharge(ServerNo),
    Lock(TaskNo, u16),
    Unlock(TaskNo, u16),
}

#[derive(Clone, Copy)]
pub enum Answer {
    Ok(u16),
    Executes(TaskNo),
    Spins(TaskNo),
    Granted(u16),
    Waits(TaskNo),
    Passed(TaskNo),
    Freed(u16),
    // the refusal's number, which is what rules and callers are told: `model.Step.refusing`, `model.Said.said` and the theorems on 1, 8 and 62 speak of it
    Refused(u16),
    // refused 62: the task waits for this resource
    RefusedWaiting(u16),
}

// What a step gives back: a refusal hands the given state back too (rule 10.1), so that the answer stands beside the state.
#[derive(Clone, Copy)]
pub struct Outcome {
    pub answer: Answer,
    pub state: State,
}

// A task's line of the table from which a state starts (rule 5.1).
#[derive(Clone, Copy)]
pub struct Entry {
    pub quota: u32,
    pub period: u32,
    pub declared: u16,
}

#[derive(Clone, Copy)]
pub struct Table {
    pub processors: u16,
    pub tasks: u16,
    pub resources: u16,
    pub entry: [Entry; 16],
}

// A refused table gives a state of no use beside the refusal (rule 5.5), so that the two stand side by side.
#[derive(Clone, Copy)]
pub struct FreshOutcome {
    pub answer: Result<(), Refusal>,
    pub state: State,
}

// A meter row: what a caller sees of one server (rule 9.1).
#[derive(Clone, Copy)]
pub struct Row {
    pub phase: Phase,
    pub budget: u32,
    pub own: u32,
    pub lent: u32,
    pub spin: u32,
}

pub use refusals::Refusal;

// A number that is no task's, no server's and no resource's.
pub const NOBODY: u16 = 16;

// The longest period, and the most ticks that one elapse may count (rules 1.4 and 10.2).
pub const LONGEST: u32 = 1000000;

// Where the clock stops (rule 1.5).
pub const CLOCK_LIMIT: u32 = 4000000000;

pub mod blank;
pub mod builders;
pub mod entries;
pub mod limits;
pub mod refusals;
pub mod verdicts;

// Rule H: who executes after an event; and, for a kernel that asks, what a server is doing. Every function takes any state, sound or not.
#![tactic(auto)]

use model::TaskNo;

// What a server does. The task is the one that it serves.
#[derive(Clone, Copy)]
pub enum Doing {
    Executes(TaskNo),
    Spins(TaskNo),
    NotRunning,
}

pub mod query;
pub mod rule;

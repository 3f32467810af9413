// What each event asks of a state and what it changes in it, before rule H: `event::refusal` and `event::changed`, the events on servers and tasks in
// `servers`, lock and unlock in `locks`, why a task does not act in `acting`. A refusal takes any state; a change takes a sound one in which no test
// refuses the event.
#![tactic(auto)]

use model::{Answer, ServerNo, State, TaskNo};

// What an event's own change makes: the state and its chain ends; the answer, which rule H may still change after a dispatch or a preempt; and the
// server that executes the task that locked or unlocked, nobody's number after another event.
// The answer stands between state and ends: a compiler copies the two apart then, which halves the stack that a change takes.
#[derive(Clone, Copy)]
pub struct Change {
    pub state: State,
    pub answer: Answer,
    pub ends: [TaskNo; 16],
    pub acting: ServerNo,
}

mod acting;
pub mod event;
mod locks;
mod running;
mod servers;
mod spending;
mod standing;
mod turning;

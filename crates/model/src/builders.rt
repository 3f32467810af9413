// An entry made anew with one thing changed, and the outcome of a refusal, as specs defines them. Assumes nothing.
ghost use Rattle.std.specs.Prelude.{◌≡◌};
ghost use Rattle.model.specs.Refusals.{refusal_no};
ghost use Rattle.model.specs.RuleH.{with_runs};
ghost use Rattle.model.specs.Events.{with_phase, with_mode, with_owner};

use crate::refusals::Refusal;
use crate::{Answer, Mode, Outcome, Phase, Resource, Server, ServerNo, State, Task, TaskNo};

impl Server {
    pub fn with_phase(self, phase: Phase) -> Server
        ensures { result ≡ with_phase phase self }
    {
        Server { phase, ..self }
    }
}

impl Task {
    pub fn with_mode(self, mode: Mode) -> Task
        ensures { result ≡ with_mode mode self }
    {
        Task { mode, ..self }
    }

    pub fn with_runs(self, runs: Option<ServerNo>) -> Task
        ensures { result ≡ with_runs runs self }
    {
        Task { runs, ..self }
    }
}

impl Resource {
    pub fn with_owner(self, owner: Option<TaskNo>) -> Resource
        ensures { result ≡ with_owner owner self }
    {
        Resource { owner, ..self }
    }
}

// The number and the given state, unchanged: any number, also one that no refusal has.
pub fn refused(st: State, number: u16) -> Outcome
    ensures { result ≡ record { answer = Answer.Refused number; state = st } }
{
    Outcome {
        answer: Answer::Refused(number),
        state: st,
    }
}

impl Outcome {
    // The same of a refusal by its name. It stands beside the other, and is no call of it: a state handed on is a state copied.
    pub fn refused(state: State, refusal: Refusal) -> Outcome
        ensures { result ≡ record { answer = Answer.Refused (refusal_no refusal); state = state } }
    {
        Outcome {
            answer: Answer::Refused(u16::from(refusal)),
            state,
        }
    }
}

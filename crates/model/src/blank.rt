// Entries that are not in use (rule 5.3), and the state of no use that a refused fresh gives back beside its answer (rule 5.5). Assumes nothing.
ghost use Rattle.std.specs.Prelude.{◌≡◌};
ghost use Rattle.model.specs.Fresh.{blank_server, blank_task, blank_resource, unusable};

use crate::{Mode, Phase, Resource, Server, State, Task, TaskNo};

pub fn blank_server() -> Server
    ensures { result ≡ blank_server }
{
    Server {
        phase: Phase::Idle,
        budget: 0,
        deadline: 0,
        quota: 0,
        period: 0,
        own: 0,
        lent: 0,
        spin: 0,
    }
}

pub fn blank_task() -> Task
    ensures { result ≡ blank_task }
{
    Task {
        mode: Mode::Suspended,
        runs: None,
        declared: 0,
        depth: 0,
        executed: 0,
        held: [0; 16],
    }
}

fn blank_resource() -> Resource
    ensures { result ≡ blank_resource }
{
    Resource {
        owner: None,
        waiting: 0,
        queue: [TaskNo(0); 16],
    }
}

// No processors, tasks or resources (rule 5.5).
pub fn unusable_state() -> State
    ensures { result ≡ unusable }
{
    State {
        processors: 0,
        tasks: 0,
        resources: 0,
        clock: 0,
        server: [blank_server(); 16],
        task: [blank_task(); 16],
        resource: [blank_resource(); 16],
    }
}

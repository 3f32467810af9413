// What stands in a line: the stack of resources that a task holds, its first `depth` places, the latest last (rule 2.3), and the queue of tasks that wait for
// a resource, its first `waiting` places, the first come first (rule 2.4). A place that is given up is set to 0 (rule 2.6).
// Assumes that there is room, or that there is something to give up; of a top nothing: the first place is read where the stack is empty.
ghost use Rattle.std.specs.Prelude.{◌≡◌, ◌-◌, ◌<◌, ◌≤◌, get_or};
ghost use Rattle.model.specs.Events.{pushed, popped, enqueued, dequeued, shifted};

use model::{Resource, Task, TaskNo};

// The stack with r on top.
pub fn pushed(r: u16, mut task: Task) -> Task
    requires { task.depth < 16 }
    ensures { result ≡ pushed r task }
{
    task.held[task.depth as usize] = r;
    task.depth += 1;
    task
}

// The stack with its top given up.
pub fn popped(mut task: Task) -> Task
    requires { (0 < task.depth) × (task.depth ≤ 16) }
    ensures { result ≡ popped task }
{
    task.depth -= 1;
    task.held[task.depth as usize] = 0;
    task
}

// The resource on top.
pub fn top(task: Task) -> u16
    ensures { result ≡ get_or task.held (task.depth - 1) 0 }
{
    let top = task.depth.saturating_sub(1) as usize;
    task.held.get(top).copied().unwrap_or(0)
}

// The queue with t at its end. As short as `pushed`: one function of both would take places, count and number of two types, and be longer.
pub fn enqueued(t: TaskNo, mut resource: Resource) -> Resource
    requires { resource.waiting < 16 }
    ensures { result ≡ enqueued t.0 resource }
{
    resource.queue[resource.waiting as usize] = t;
    resource.waiting += 1;
    resource
}

// The others one place on, and the last place given up. From one array into another: `rotate_left` asks for `memmove`, which a kernel may not have.
fn shifted(queue: [TaskNo; 16], waiting: usize) -> [TaskNo; 16]
    requires { (0 < waiting) × (waiting ≤ 16) }
    ensures { result ≡ shifted queue (waiting - 1) }
{
    let last = waiting - 1;
    let mut after = queue;
    after[..last].copy_from_slice(&queue[1..waiting]);
    after[last] = TaskNo(0);
    after
}

// The queue with its first given up.
pub fn dequeued(resource: Resource) -> Resource
    requires { (0 < resource.waiting) × (resource.waiting ≤ 16) }
    ensures { result ≡ dequeued resource }
{
    Resource {
        waiting: resource.waiting - 1,
        queue: shifted(resource.queue, resource.waiting as usize),
        ..resource
    }
}

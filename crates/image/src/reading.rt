// A state read out of lent bytes: the header and the entries in use; the others are blank, whatever stands in their bytes. Each function of an entry is
// given an offset at which the entry lies whole in the slice, and not the entry's own part of it, since the definitions read at offsets of the image; `read`
// assumes nothing.
ghost use Rattle.std.specs.Prelude.{◌≡◌, ◌+◌, ◌≤◌, length};
ghost use Rattle.lent_bytes.specs.Numbers.{two_bytes};
ghost use Rattle.model.specs.Refusals.{numbered};
ghost use Rattle.image.specs.Layout.{image_size};
ghost use Rattle.image.specs.Decoded.{number_of, tagged_in, entries_in, server_in, task_in, resource_in, state_in, decoded, imaged_by};

use crate::Tagged;
use crate::sizes::{
    RESOURCE_SIZE, RESOURCES_OFFSET, SERVER_SIZE, SERVERS_OFFSET, TASK_SIZE, TASKS_OFFSET,
};
use crate::tags::phase_of;
use crate::testing::{is_image, used};
use lent_bytes::numbers::{four_bytes, two_bytes};
use model::blank::unusable_state;
use model::{Mode, Refusal, Resource, Server, ServerNo, State, Task, TaskNo};
use std::array;

#[tactic(auto, unfolding(crate::specs::Decoded::server_in))]
fn server_in(bytes: &[u8], at: usize) -> Server
    requires { at + 29 ≤ length bytes.now }
    ensures { result ≡ server_in bytes.now at }
{
    Server {
        phase: phase_of(bytes[at]),
        budget: four_bytes(bytes, at + 1),
        deadline: four_bytes(bytes, at + 5),
        quota: four_bytes(bytes, at + 9),
        period: four_bytes(bytes, at + 13),
        own: four_bytes(bytes, at + 17),
        lent: four_bytes(bytes, at + 21),
        spin: four_bytes(bytes, at + 25),
    }
}

// Sixteen numbers.
fn numbers_in(bytes: &[u8], at: usize) -> [u16; 16]
    requires { at + 32 ≤ length bytes.now }
    ensures { result ≡ entries_in two_bytes 2 0 16 bytes.now at }
{
    array::from_fn(|i| two_bytes(bytes, at + 2 * i))
}

// The number of a server or a task, or none.
fn number_in(bytes: &[u8], at: usize) -> Option<u16>
    requires { at + 3 ≤ length bytes.now }
    ensures { result ≡ number_of (tagged_in bytes.now at) }
{
    Tagged::read(bytes, at).into()
}

#[tactic(auto, unfolding(crate::specs::Decoded::task_in))]
fn task_in(bytes: &[u8], at: usize) -> Task
    requires { at + 46 ≤ length bytes.now }
    ensures { result ≡ task_in bytes.now at }
{
    Task {
        mode: Mode::from(Tagged::read(bytes, at)),
        runs: number_in(bytes, at + 3).map(ServerNo),
        declared: two_bytes(bytes, at + 6),
        depth: two_bytes(bytes, at + 8),
        executed: four_bytes(bytes, at + 10),
        held: numbers_in(bytes, at + 14),
    }
}

#[tactic(auto, unfolding(crate::specs::Decoded::resource_in))]
fn resource_in(bytes: &[u8], at: usize) -> Resource
    requires { at + 37 ≤ length bytes.now }
    ensures { result ≡ resource_in bytes.now at }
{
    Resource {
        owner: number_in(bytes, at).map(TaskNo),
        waiting: two_bytes(bytes, at + 3),
        queue: numbers_in(bytes, at + 5).map(TaskNo),
    }
}

fn state_in(bytes: &[u8]) -> State
    requires { length bytes.now ≡ image_size }
    ensures { result ≡ state_in bytes.now }
{
    let mut state = State {
        processors: two_bytes(bytes, 0),
        tasks: two_bytes(bytes, 2),
        resources: two_bytes(bytes, 4),
        clock: four_bytes(bytes, 6),
        ..unusable_state()
    };
    let tasks_used = used(state.tasks);
    for i in 0..tasks_used {
        state.server[i] = server_in(bytes, SERVERS_OFFSET + SERVER_SIZE * i);
        state.task[i] = task_in(bytes, TASKS_OFFSET + TASK_SIZE * i);
    }
    let resources_used = used(state.resources);
    for i in 0..resources_used {
        state.resource[i] = resource_in(bytes, RESOURCES_OFFSET + RESOURCE_SIZE * i);
    }
    state
}

// The state that the bytes hold, or that they hold none. As the value of an `if` the state would be copied once more.
pub fn read(bytes: &[u8]) -> Result<State, Refusal>
    ensures { numbered result ≡ imaged_by (decoded bytes.now) }
{
    if !is_image(bytes) {
        return Err(Refusal::Unsound);
    }
    Ok(state_in(bytes))
}

// A state written into lent bytes: the header and the entries in use; every other byte stays. Each function of an entry is given an offset at which the
// entry lies whole in the slice, as those of reading.rt are; `write` assumes nothing.
ghost use Rattle.std.specs.Prelude.{◌≡◌, ◌+◌, ◌≤◌, eqb, length};
ghost use Rattle.lent_bytes.specs.Numbers.{two};
ghost use Rattle.lent_bytes.specs.Writing.{stored};
ghost use Rattle.image.specs.Layout.{image_size};
ghost use Rattle.image.specs.Encoded.{tagged_bytes, entries, server_bytes, task_bytes, resource_bytes, written};

use crate::Tagged;
use crate::sizes::{
    IMAGE_SIZE, RESOURCE_SIZE, RESOURCES_OFFSET, SERVER_SIZE, SERVERS_OFFSET, TASK_SIZE,
    TASKS_OFFSET,
};
use crate::tags::phase_tag;
use crate::testing::used;
use lent_bytes::numbers::{put_four, put_one, put_two};
use model::{Resource, Server, State, Task};

fn put_tagged(bytes: &mut [u8], at: usize, tagged: Tagged)
    requires { at + 3 ≤ length bytes.old }
    ensures { bytes.new ≡ stored bytes.old at (tagged_bytes tagged) }
{
    put_one(bytes, at, tagged.tag);
    put_two(bytes, at + 1, tagged.number);
}

fn put_server(bytes: &mut [u8], at: usize, s: &Server)
    requires { at + 29 ≤ length bytes.old }
    ensures { bytes.new ≡ stored bytes.old at (server_bytes s.now) }
{
    put_one(bytes, at, phase_tag(s.phase));
    put_four(bytes, at + 1, s.budget);
    put_four(bytes, at + 5, s.deadline);
    put_four(bytes, at + 9, s.quota);
    put_four(bytes, at + 13, s.period);
    put_four(bytes, at + 17, s.own);
    put_four(bytes, at + 21, s.lent);
    put_four(bytes, at + 25, s.spin);
}

fn put_numbers(bytes: &mut [u8], at: usize, numbers: &[u16; 16])
    requires { at + 32 ≤ length bytes.old }
    ensures { bytes.new ≡ stored bytes.old at (entries two 0 16 numbers.now) }
{
    for (i, n) in numbers.iter().enumerate() {
        put_two(bytes, at + 2 * i, *n);
    }
}

fn put_task(bytes: &mut [u8], at: usize, t: &Task)
    requires { at + 46 ≤ length bytes.old }
    ensures { bytes.new ≡ stored bytes.old at (task_bytes t.now) }
{
    put_tagged(bytes, at, t.mode.into());
    put_tagged(bytes, at + 3, t.runs.map(|s| s.0).into());
    put_two(bytes, at + 6, t.declared);
    put_two(bytes, at + 8, t.depth);
    put_four(bytes, at + 10, t.executed);
    put_numbers(bytes, at + 14, &t.held);
}

fn put_resource(bytes: &mut [u8], at: usize, r: &Resource)
    requires { at + 37 ≤ length bytes.old }
    ensures { bytes.new ≡ stored bytes.old at (resource_bytes r.now) }
{
    put_tagged(bytes, at, r.owner.map(|t| t.0).into());
    put_two(bytes, at + 3, r.waiting);
    put_numbers(bytes, at + 5, &r.queue.map(|t| t.0));
}

// The header and the entries in use in place of their bytes, and whether the bytes were as many as a state takes; where they were not, nothing is written.
pub fn write(st: State, bytes: &mut [u8]) -> bool
    ensures answer { result ≡ eqb (length bytes.old) image_size }
    ensures image { bytes.new ≡ written st bytes.old }
{
    if bytes.len() != IMAGE_SIZE {
        return false;
    }
    let tasks_used = used(st.tasks);
    let resources_used = used(st.resources);
    put_two(bytes, 0, st.processors);
    put_two(bytes, 2, st.tasks);
    put_two(bytes, 4, st.resources);
    put_four(bytes, 6, st.clock);
    for (i, s) in st.server[..tasks_used].iter().enumerate() {
        put_server(bytes, SERVERS_OFFSET + SERVER_SIZE * i, s);
    }
    for (i, t) in st.task[..tasks_used].iter().enumerate() {
        put_task(bytes, TASKS_OFFSET + TASK_SIZE * i, t);
    }
    for (i, r) in st.resource[..resources_used].iter().enumerate() {
        put_resource(bytes, RESOURCES_OFFSET + RESOURCE_SIZE * i, r);
    }
    true
}

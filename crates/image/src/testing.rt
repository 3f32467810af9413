// Which bytes are an image, by the entries in use. Each test of an entry is given an offset at which the entry lies whole in the slice.
ghost use Rattle.std.specs.Prelude.{◌≡◌, ◌+◌, ◌<◌, ◌≤◌, length};
ghost use Rattle.laws.specs.Loops.{all_to};
ghost use Rattle.image.specs.Layout.{image_size, used};
ghost use Rattle.image.specs.Decoded.{server_fits, task_fits, resource_fits, tasks_used, resources_used, task_entries_fit, resource_entry_fits, is_image};

use crate::Tagged;
use crate::sizes::{
    IMAGE_SIZE, RESOURCE_SIZE, RESOURCES_OFFSET, SERVER_SIZE, SERVERS_OFFSET, TASK_SIZE,
    TASKS_OFFSET,
};
use lent_bytes::numbers::two_bytes;

#[tactic(auto, unfolding(crate::specs::Decoded::server_fits))]
fn server_fits(bytes: &[u8], at: usize) -> bool
    requires { at + 1 ≤ length bytes.now }
    ensures { result ≡ server_fits bytes.now at }
{
    bytes[at] < 4
}

#[tactic(auto, unfolding(crate::specs::Decoded::task_fits, crate::specs::Decoded::tagged_fits))]
fn task_fits(bytes: &[u8], at: usize) -> bool
    requires { at + 6 ≤ length bytes.now }
    ensures { result ≡ task_fits bytes.now at }
{
    Tagged::read(bytes, at).fits(2) && Tagged::read(bytes, at + 3).fits(1)
}

#[tactic(auto, unfolding(crate::specs::Decoded::resource_fits, crate::specs::Decoded::tagged_fits))]
fn resource_fits(bytes: &[u8], at: usize) -> bool
    requires { at + 3 ≤ length bytes.now }
    ensures { result ≡ resource_fits bytes.now at }
{
    Tagged::read(bytes, at).fits(1)
}

// How many entries are in use.
pub fn used(count: u16) -> usize
    ensures { result ≡ used count }
{
    usize::from(count).min(16)
}

// Server and task i.
#[tactic(auto, unfolding(crate::specs::Decoded::task_entries_fit))]
fn task_entries_fit(bytes: &[u8], i: usize) -> bool
    requires { (length bytes.now ≡ image_size) × (i < 16) }
    ensures { result ≡ task_entries_fit bytes.now i }
{
    server_fits(bytes, SERVERS_OFFSET + SERVER_SIZE * i)
        && task_fits(bytes, TASKS_OFFSET + TASK_SIZE * i)
}

fn tasks_fit(bytes: &[u8]) -> bool
    requires { length bytes.now ≡ image_size }
    ensures { result ≡ all_to (tasks_used bytes.now) (task_entries_fit bytes.now) }
{
    (0..used(two_bytes(bytes, 2))).all(|i| task_entries_fit(bytes, i))
}

fn resources_fit(bytes: &[u8]) -> bool
    requires { length bytes.now ≡ image_size }
    ensures { result ≡ all_to (resources_used bytes.now) (resource_entry_fits bytes.now) }
{
    (0..used(two_bytes(bytes, 4))).all(|r| resource_fits(
        bytes,
        RESOURCES_OFFSET + RESOURCE_SIZE * r,
    ))
}

#[tactic(auto, unfolding(crate::specs::Decoded::is_image))]
pub fn is_image(bytes: &[u8]) -> bool
    ensures { result ≡ is_image bytes.now }
{
    bytes.len() == IMAGE_SIZE && tasks_fit(bytes) && resources_fit(bytes)
}

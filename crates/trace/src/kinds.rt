// What a kind's number fixes: the length of its body, whether it is an event's, and which. Assumes nothing.
ghost use Rattle.std.specs.Prelude.{◌≡◌};
ghost use Rattle.trace.specs.Reading.{body_length, is_event, event_of};

use model::{Event, ServerNo, TaskNo};

// The bytes of a kind's body, 0 for an unknown kind.
#[tactic(auto, unfolding(crate::specs::Reading::body_length))]
pub fn body_length(kind: u16) -> usize
    ensures { result ≡ body_length kind }
{
    match kind {
        1..=4 | 6 => 2,
        5 | 7..=8 => 4,
        16 => 6,
        17 => 10,
        _ => 0,
    }
}

pub fn is_event(kind: u16) -> bool
    ensures { result ≡ is_event kind }
{
    matches!(kind, 1..=8)
}

// The event of an event's kind, from its operands; each kind looks at its own alone.
pub fn event_of(kind: u16, number: u16, resource: u16, ticks: u32) -> Event
    ensures { result ≡ event_of kind number resource ticks }
{
    match kind {
        1 => Event::Wake(TaskNo(number)),
        2 => Event::Suspend(TaskNo(number)),
        3 => Event::Dispatch(ServerNo(number)),
        4 => Event::Preempt(ServerNo(number)),
        5 => Event::Elapse(ticks),
        6 => Event::Recharge(ServerNo(number)),
        7 => Event::Lock(TaskNo(number), resource),
        _ => Event::Unlock(TaskNo(number), resource),
    }
}

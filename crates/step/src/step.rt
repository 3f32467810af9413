// `step`: soundness, refusal, the event's own change, rule H, answer; every event goes this one way. Assumes nothing.
ghost use Rattle.std.specs.Prelude.{◌≡◌, true};
ghost use Rattle.std.proofs.Math.Option.{none};
ghost use Rattle.model.specs.Sound.{sound};
ghost use Rattle.model.specs.Step.{outcome, attempted, stepped};
ghost use Rattle.model.specs.Said.{said};
ghost use Rattle.events.specs.Changes.{Clear};

use model::{Event, Outcome, Refusal, State};

// An event that no test refuses, on a sound state.
fn taken(st: State, e: Event) -> Outcome
    requires { Clear st e }
    ensures { result ≡ outcome none st e }
{
    let change = events::event::changed(st, e);
    let answer = change.answer;
    let ends = change.ends;
    let after = settle::rule::settled(change.acting, ends, change.state);
    Outcome {
        answer: crate::answer::answered(answer, after, ends, e),
        state: after,
    }
}

// A step on a state that is known to be sound: all but the test for 1. A refusal hands the given state back as it came.
pub fn attempted(st: State, e: Event) -> Outcome
    requires { sound st ≡ true }
    ensures { result ≡ attempted st e }
{
    // as the value of a `match` the state would be copied once more
    if let Err(refusal) = events::event::refusal(st, e) {
        return Outcome {
            answer: events::event::refusing(st, e, u16::from(refusal)),
            state: st,
        };
    }
    taken(st, e)
}

// The answer to an event, and the next state. An unsound state is refused and handed back as it came.
pub fn step(st: State, e: Event) -> Outcome
    ensures value { result ≡ stepped st e }
    ensures says { said result.answer ≡ said (stepped st e).answer }
{
    if !soundness::sound::is_sound(st) {
        return Outcome::refused(st, Refusal::Unsound);
    }
    attempted(st, e)
}

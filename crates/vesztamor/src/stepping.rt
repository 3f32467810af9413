// The exported step: one event on a state in lent bytes. It takes any bytes and any numbers. Assumes nothing.
ghost use Rattle.std.specs.Prelude.{◌≡◌};
ghost use Rattle.vesztamor.specs.Packed.{packed};
ghost use Rattle.vesztamor.specs.Exported.{step_export};

use crate::answers::{is_refused, refused, step_answer};
use crate::sound::holds_sound;
use model::Refusal;
use trace::kinds::{event_of, is_event};

// One event: the state after it in place of the bytes, or a refusal and the bytes as they were.
#[tactic(auto, unfolding(crate::specs::Exported::step_export))]
pub fn vesztamor_step(state: &mut [u8], kind: u16, number: u16, resource: u16, ticks: u32) -> u64
    ensures answer { result ≡ packed (step_export state.old kind number resource ticks).answer }
    ensures bytes { state.new ≡ (step_export state.old kind number resource ticks).bytes }
{
    if !is_event(kind) {
        if holds_sound(&state[..]) {
            return refused(Refusal::BadRecord);
        }
        return refused(Refusal::Unsound);
    }
    let Ok(before) = image::reading::read(&state[..]) else {
        return refused(Refusal::Unsound);
    };
    let event = event_of(kind, number, resource, ticks);
    let outcome = step::step::step(before, event);
    if is_refused(outcome.answer) {
        return step_answer(outcome.answer);
    }
    image::writing::write(outcome.state, state);
    step_answer(outcome.answer)
}

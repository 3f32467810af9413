// The exported functions on a state in lent bytes. They take any bytes and any numbers. A caller that shares a state between processors calls them
// under one lock of its own: they keep nothing between calls. Assumes nothing.
ghost use Rattle.std.specs.Prelude.{◌≡◌};
ghost use Rattle.vesztamor.specs.Packed.{packed};
ghost use Rattle.vesztamor.specs.Exported.{fresh_export, sound_export, executing_export};

use crate::answers::{doing_answer, refused, unfit};
use crate::sound::holds_sound;
use crate::tables::{is_table, table_in};
use image::sizes::IMAGE_SIZE;
use model::{Refusal, ServerNo};

// The fresh state of a table, into the bytes lent for it, with 0 in every byte past its counts.
#[tactic(auto, using(crate::proofs::Ways::written_over), unfolding(crate::specs::Exported::fresh_export))]
pub fn vesztamor_fresh(table: &[u8], state: &mut [u8]) -> u64
    ensures answer { result ≡ packed (fresh_export table.now state.old).answer }
    ensures bytes { state.new ≡ (fresh_export table.now state.old).bytes }
{
    if state.len() != IMAGE_SIZE {
        return unfit();
    }
    if !is_table(table) {
        return refused(Refusal::BadCounts);
    }
    let made = fresh::start::fresh(table_in(table));
    match made.answer {
        Ok(()) => {
            state.fill(0);
            image::writing::write(made.state, state);
            0
        }
        Err(refusal) => refused(refusal),
    }
}

// Whether the bytes hold a sound state.
#[tactic(auto, unfolding(crate::specs::Exported::sound_export))]
pub fn vesztamor_is_sound(state: &[u8]) -> u64
    ensures { result ≡ packed (sound_export state.now) }
{
    if holds_sound(state) {
        0
    } else {
        refused(Refusal::Unsound)
    }
}

// What a server is doing in the state that the bytes hold.
#[tactic(auto, unfolding(crate::specs::Exported::executing_export))]
pub fn vesztamor_executing(state: &[u8], server: u16) -> u64
    ensures { result ≡ packed (executing_export state.now server) }
{
    match image::reading::read(state) {
        Ok(held) => doing_answer(settle::query::doing(held, ServerNo(server))),
        Err(refusal) => refused(refusal),
    }
}

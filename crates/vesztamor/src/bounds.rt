// The exported interference bound. It takes any bytes and any numbers. Assumes nothing.
ghost use Rattle.std.specs.Prelude.{◌≡◌, length};
ghost use Rattle.vesztamor.specs.Packed.{packed};
ghost use Rattle.vesztamor.specs.Exported.{bound_size, bound_bytes, bound_export};

use crate::answers::{refused, unfit};
use crate::sections::{is_sections, sections_in};
use bound::Bound;
use lent_bytes::numbers::put_four;
use model::{Refusal, TaskNo};

const BOUND_SIZE: usize = 12;

// 2 ^ 32
const UPPER_HALF: u64 = 4294967296;

// The bound in two halves, which the must-fail edit `a_bound_with_its_halves_swapped` exchanges.
fn put_bound(out: &mut [u8], bound: Bound)
    requires { length out.old ≡ bound_size }
    ensures { out.new ≡ bound_bytes bound.value bound.weighings }
{
    put_four(out, 0, (bound.value % UPPER_HALF) as u32);
    put_four(out, 4, (bound.value / UPPER_HALF) as u32);
    put_four(out, 8, bound.weighings);
}

// The bound of a task and the weighings spent on it, into the bytes lent for them.
#[tactic(auto, unfolding(crate::specs::Exported::bound_export))]
pub fn vesztamor_bound(sections: &[u8], task: u16, allowance: u32, out: &mut [u8]) -> u64
    ensures answer { result ≡ packed (bound_export sections.now task allowance out.old).answer }
    ensures bytes { out.new ≡ (bound_export sections.now task allowance out.old).bytes }
{
    if out.len() != BOUND_SIZE {
        return unfit();
    }
    if !is_sections(sections) {
        return refused(Refusal::BadSectionCounts);
    }
    match bound::answer::bound(sections_in(sections), TaskNo(task), allowance) {
        Ok(found) => {
            put_bound(out, found);
            BOUND_SIZE as u64
        }
        Err(refusal) => refused(refusal),
    }
}

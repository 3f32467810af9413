// The soundness test (rules 4.1 to 4.16). Sizes first, so that the rest knows them; then tasks with their stacks, resources with their queues, and
// servers with the chains. No state is handed on inside a loop: a copy of it there would cost more than the test. Assumes nothing.
ghost use Rattle.std.specs.Prelude.{◌≡◌, ◌&&◌, leb};
ghost use Rattle.model.specs.Sound.{counts_fit, clock_limit, sound};

use crate::reading::Reading;
use model::limits::counts_fit;
use model::{CLOCK_LIMIT, State};

// Rules 1.1 to 1.3 and 1.5.
fn sizes_fit(processors: u16, tasks: u16, resources: u16, clock: u32) -> bool
    ensures { result ≡ (counts_fit processors tasks resources && leb clock clock_limit) }
{
    counts_fit(processors, tasks, resources) && clock <= CLOCK_LIMIT
}

// Whether a state is sound, whatever it is.
pub fn is_sound(st: State) -> bool
    ensures { result ≡ sound st }
{
    if !sizes_fit(st.processors, st.tasks, st.resources, st.clock) {
        return false;
    }
    Reading::of(&st).passes()
}

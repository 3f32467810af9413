// How many servers run. Servers that are not in use are not read. Assumes nothing.
ghost use Rattle.std.specs.Prelude.{◌≡◌};
ghost use Rattle.laws.specs.Loops.{count_to};
ghost use Rattle.model.specs.State.{running_at};

use model::State;
use model::entries::in_use;

pub fn running_count(st: State) -> u16
    ensures { result ≡ count_to 16 (running_at st) }
{
    let mut count: u16 = 0;
    for (s, server) in st.server.iter().enumerate() {
        if in_use(st.tasks, s) {
            count += u16::from(server.phase.is_running());
        }
    }
    count
}

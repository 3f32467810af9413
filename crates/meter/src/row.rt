// One server's meter row, by value (rule 9.1). Assumes nothing.
ghost use Rattle.std.specs.Prelude.{◌≡◌};
ghost use Rattle.model.specs.Meter.{row_of};

use model::blank::blank_server;
use model::{Row, ServerNo, State};

// The row of server s, whatever the state and the number; past the sixteen places it is an idle server's with nothing on its accounts.
#[tactic(auto, unfolding(model::specs::Meter::row_of))]
pub fn row_of(st: State, s: ServerNo) -> Row
    ensures { result ≡ row_of st s.0 }
{
    let i = s.0 as usize;
    let server = st.server.get(i).copied().unwrap_or(blank_server());
    Row {
        phase: server.phase,
        budget: server.budget,
        own: server.own,
        lent: server.lent,
        spin: server.spin,
    }
}

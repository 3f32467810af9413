// Replay from the first event on: each event is stepped and its line written, up to the file's end or its first fault. A fresh state is sound and a step
// keeps it so (law `kept`), so that no event is tested for it. The function is given a buffer with room for the listing of every file of the trace's
// length, and a sound state.
ghost use Rattle.std.specs.Prelude.{◌≡◌, true, ◌≤◌, length};
ghost use Rattle.model.specs.Shape.{Shaped};
ghost use Rattle.model.specs.Sound.{sound};
ghost use Rattle.listing.specs.Replay.{room};
ghost use Rattle.listing.specs.Computed.{text_from, running, close, Listed};
ghost use Rattle.listing.specs.Writer.{HasRoom};

use crate::Stop;
use crate::writer::Writer;
use model::{Refusal, State};
use trace::{Place, Record};

// The state after the last event, or where the listing stops. Past its table a replay is `running`: the text no longer depends on the table (law
// `running_is`).
pub(crate) fn put_events(
    file: &[u8],
    text: &mut Writer,
    start: Place,
    fresh: State,
) -> Result<State, Stop>
    requires at_in_bounds { (start.at ≤ length file.now) × HasRoom text.old (room (length file.now)) }
    requires shaped { Shaped fresh × (sound fresh ≡ true) }
    ensures { Listed (length file.now) text.old (text_from file.now (running fresh 0) start.at) (close result) text.new }
{
    let mut place = start;
    let mut state = fresh;
    let mut events: usize = 0;
    loop {
        let at = place.at;
        let read = match place.read(file) {
            Ok(read) => read,
            Err(refusal) => return Err(Stop { at, refusal }),
        };
        let Some((record, next)) = read else {
            return Ok(state);
        };
        let Record::Happening(event) = record else {
            return Err(Stop {
                at,
                refusal: Refusal::OutOfOrder,
            });
        };
        let outcome = step::step::attempted(state, event);
        events += 1;
        text.put_event(events, outcome.answer);
        state = outcome.state;
        place = next;
    }
}

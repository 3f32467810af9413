// `replay`: the whole text of a trace, whatever its bytes, into a lent buffer. Assumes nothing.
ghost use Rattle.std.specs.Prelude.{◌≡◌, leb, length, MatchResult};
ghost use Rattle.model.specs.Refusals.{refusal_no};
ghost use Rattle.listing.specs.Listing.{stop_line, listing};
ghost use Rattle.listing.specs.Replay.{room, replayed, buffer_after, said_replayed};
ghost use Rattle.listing.specs.Computed.{Listed};
ghost use Rattle.listing.specs.Writer.{HasRoom, Writes};

use crate::buffers::{FILE_LIMIT, ROOM_EACH, ROOM_MORE};
use crate::happenings::put_events;
use crate::table::read_table;
use crate::writer::Writer;
use crate::{Stop, TooShort};
use model::Refusal;

// Whether a buffer of so many bytes is long enough for every file of a length, without a product that could be too large.
#[tactic(auto, unfolding(crate::specs::Replay::room))]
fn has_room(length: usize, lent: usize) -> bool
    ensures { result ≡ leb (room length) lent }
{
    lent >= ROOM_MORE && length <= (lent - ROOM_MORE) / ROOM_EACH
}

// The listing but for the line of a stop: the lines of the events and the last ones, or those of the events up to where the listing stops, which it does at
// once where the file is too long (rules 13.7, 14.4). The last lines are written here, where the state is: a state that is handed up is a state copied.
fn put_lines(file: &[u8], text: &mut Writer) -> Result<(), Stop>
    requires { HasRoom text.old (room (length file.now)) }
    ensures { MatchResult result
        (λ u. Writes (room (length file.now)) text.old (listing file.now) text.new)
        (λ stop. Listed (length file.now) text.old (listing file.now) (stop_line stop.at (refusal_no stop.refusal)) text.new) }
{
    if file.len() > FILE_LIMIT {
        return Err(Stop {
            at: 0,
            refusal: Refusal::TooLong,
        });
    }
    let (state, place) = match read_table(file) {
        Ok(read) => read,
        Err(stop) => return Err(stop),
    };
    match put_events(file, text, place, state) {
        Ok(last) => {
            text.put_end(&last);
            Ok(())
        }
        Err(stop) => Err(stop),
    }
}

// The whole listing.
fn put_listing(file: &[u8], text: &mut Writer)
    requires { HasRoom text.old (room (length file.now)) }
    ensures { Writes (room (length file.now)) text.old (listing file.now) text.new }
{
    if let Err(stop) = put_lines(file, text) {
        text.put_stop(stop);
    }
}

// The text's length, with the text in the buffer from its start and what stood there after it; or that the buffer is too short, and it stays as it was.
pub fn replay(file: &[u8], out: &mut [u8]) -> Result<usize, TooShort>
    ensures value { result ≡ replayed file.now (length out.old) }
    ensures text { out.new ≡ buffer_after file.now out.old }
    ensures says { said_replayed result ≡ said_replayed (replayed file.now (length out.old)) }
{
    if !has_room(file.len(), out.len()) {
        return Err(TooShort);
    }
    let mut text = Writer { out, end: 0 };
    put_listing(file, &mut text);
    Ok(text.end)
}

// Reading: a place by value answers the record with the next place, nothing where the file ends there, between records, or the refusal 30 or 31. It assumes
// nothing; the record of a known kind is read at an offset at which its body lies whole in the slice.
ghost use Rattle.std.specs.Prelude.{◌≡◌, ◌+◌, ◌≤◌, length};
ghost use Rattle.model.specs.Refusals.{numbered};
ghost use Rattle.trace.specs.Reading.{body_length, record_in, read_at};

use crate::kinds::{body_length, event_of};
use crate::lines::entry_in;
use crate::{Place, Record};
use lent_bytes::numbers::{four_bytes, two_bytes};
use model::Refusal;

// The record of a known kind. An operand that the kind has not is handed over as 0.
#[tactic(auto, unfolding(crate::specs::Reading::record_in, crate::specs::Reading::body_length))]
fn record_in(kind: u16, file: &[u8], at: usize) -> Record
    requires { (at + body_length kind ≤ length file.now) × (body_length kind ≡ 0 → ⊥) }
    ensures { result ≡ record_in kind file.now at }
{
    match kind {
        16 => Record::Counts(
            two_bytes(file, at),
            two_bytes(file, at + 2),
            two_bytes(file, at + 4),
        ),
        17 => Record::Reservation(entry_in(file, at)),
        5 => Record::Happening(event_of(kind, 0, 0, four_bytes(file, at))),
        7..=8 => {
            let number = two_bytes(file, at);
            Record::Happening(event_of(kind, number, two_bytes(file, at + 2), 0))
        }
        _ => Record::Happening(event_of(kind, two_bytes(file, at), 0, 0)),
    }
}

impl Place {
    #[tactic(auto, unfolding(crate::specs::Reading::read_at, crate::specs::Reading::read_fault, laws::specs::Tests::first_of, crate::specs::Reading::body_length))]
    pub fn read(self, file: &[u8]) -> Result<Option<(Record, Place)>, Refusal>
        ensures { numbered result ≡ read_at file.now self.at }
    {
        let at = self.at;
        if file.len() <= at {
            return Ok(None);
        }
        if file.len() - at < 2 {
            return Err(Refusal::CutShort);
        }
        let length = two_bytes(file, at) as usize;
        if length < 2 {
            return Err(Refusal::BadRecord);
        }
        if file.len() - at - 2 < length {
            return Err(Refusal::CutShort);
        }
        let kind = two_bytes(file, at + 2);
        let body = body_length(kind);
        if body == 0 || body + 2 != length {
            return Err(Refusal::BadRecord);
        }
        let record = record_in(kind, file, at + 4);
        let next = Place {
            at: at + 2 + length,
        };
        Ok(Some((record, next)))
    }
}

// Replay up to the first event: the table's records, each tested as it is read. Fresh does the testing: of the counts alone, then of the table so far.
// Nothing is written; where a record is not taken, the listing stops there. Assumes what each function asks.
ghost use Rattle.std.specs.Prelude.{◌≡◌, ◌+◌, ◌<◌, MatchResult};
ghost use Rattle.model.specs.Refusals.{numbered};
ghost use Rattle.trace.specs.Reading.{read_at};
ghost use Rattle.listing.specs.Computed.{table_record, Begun, Refuses, TableRead};

use crate::Stop;
use fresh::start::fresh;
use model::limits::no_entry;
use model::{Entry, Refusal, State, Table};
use trace::{Place, Record};

// A record of the table: where none can be read, the reader's refusal, or 32 at the file's end (rule 13.6).
fn table_record(file: &[u8], place: Place) -> Result<(Record, Place), Refusal>
    ensures { numbered result ≡ table_record (read_at file.now place.at) }
{
    let Some(found) = place.read(file)? else {
        return Err(Refusal::OutOfOrder);
    };
    Ok(found)
}

// The counts (rule 13.4), as a table that has no entries yet, and the place after them. They are tested on a table whose entries no test refuses (law
// `counts_tested`).
fn read_counts(file: &[u8]) -> Result<(Table, Place), Refusal>
    ensures { MatchResult result (λ found. Begun file.now found.0 found.1.at 0) (Refuses file.now 0) }
{
    let (record, next) = table_record(file, Place { at: 0 })?;
    let Record::Counts(processors, tasks, resources) = record else {
        return Err(Refusal::OutOfOrder);
    };
    let blameless = Entry {
        quota: 1,
        period: 1,
        declared: 0,
    };
    let counts = Table {
        processors,
        tasks,
        resources,
        entry: [blameless; 16],
    };
    fresh(counts).answer?;
    let table = Table {
        entry: [no_entry(); 16],
        ..counts
    };
    Ok((table, next))
}

// The line of task k (rule 13.4), in the table so far, and the place after it. It is tested by fresh on the table so far, of which it is the last (law
// `entry_tested`).
fn read_entry(file: &[u8], place: Place, table: Table, k: u16) -> Result<(Table, Place), Refusal>
    requires below { k < table.tasks }
    requires so_far { Begun file.now table place.at k }
    ensures { MatchResult result
        (λ found. Begun file.now found.0 found.1.at (k + 1) × (found.0.tasks ≡ table.tasks))
        (Refuses file.now place.at) }
{
    let (record, next) = table_record(file, place)?;
    let Record::Reservation(reservation) = record else {
        return Err(Refusal::OutOfOrder);
    };
    let mut longer = table;
    longer.entry[k as usize] = reservation;
    let so_far = Table {
        tasks: k + 1,
        ..longer
    };
    fresh(so_far).answer?;
    Ok((longer, next))
}

// The whole table: the state that it starts and the place of the first event, or where the listing stops.
pub(crate) fn read_table(file: &[u8]) -> Result<(State, Place), Stop>
    ensures { MatchResult result
        (λ found. TableRead file.now found.0 found.1.at)
        (λ stop. Refuses file.now stop.at stop.refusal) }
{
    let (mut table, mut place) = read_counts(file).map_err(|refusal| Stop { at: 0, refusal })?;
    for k in 0..table.tasks {
        let at = place.at;
        let (longer, next) = read_entry(file, place, table, k).map_err(|refusal| Stop {
            at,
            refusal,
        })?;
        table = longer;
        place = next;
    }
    Ok((fresh(table).state, place))
}

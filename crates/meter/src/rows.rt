// Meter rows into a lent slice of rows (rule 9). Assumes nothing.
ghost use Rattle.std.specs.Prelude.{◌≡◌, length};
ghost use Rattle.model.specs.Said.{said};
ghost use Rattle.model.specs.Meter.{metered};
ghost use Rattle.meter.specs.Decided.{meter_said};

use crate::answer::{decided, rows_written};
use crate::row::row_of;
use model::{Answer, Row, ServerNo, State};

// Row s becomes server s's for each task, the others stay, and the answer says how many; a refusal leaves all as they came.
pub fn fill(st: State, rows: &mut [Row]) -> Answer
    ensures answer { result ≡ (metered st rows.old).0 }
    ensures rows { rows.new ≡ (metered st rows.old).1 }
    ensures said { said result ≡ meter_said st (length rows.old) }
{
    let answer = decided(st, rows.len());
    let written = &mut rows[..rows_written(answer) as usize];
    for (s, row) in written.iter_mut().enumerate() {
        *row = row_of(st, ServerNo(s as u16));
    }
    answer
}

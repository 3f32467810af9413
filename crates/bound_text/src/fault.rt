// The table that a text was read as, and the line at which it is refused. Assumes nothing.
ghost use Rattle.std.specs.Prelude.{◌≡◌};
ghost use Rattle.bound_text.specs.Faults.{table_to, is_refused, line_read, faulty_line};

use crate::Reading;
use bound::{Sections, table};

// The table of the first sections that were read.
pub fn table_to(reading: Reading, count: u16) -> Sections
    ensures { result ≡ table_to reading count }
{
    // By a variable: no proof is written of an array's field put straight into a literal.
    let section = reading.section;
    Sections {
        tasks: reading.tasks,
        count,
        section,
    }
}

// Whether that table is refused for the number.
fn is_refused(reading: Reading, number: u16, count: u16) -> bool
    ensures { result ≡ is_refused reading number count }
{
    match table::table_refusal(table_to(reading, count)) {
        Ok(()) => false,
        Err(refusal) => u16::from(refusal) == number,
    }
}

// The line of a section's place. Where no section was read it has 0, which is the number of no line.
fn line_read(line: u32) -> Option<u32>
    ensures { result ≡ line_read line }
{
    (line != 0).then_some(line)
}

// The line for which a table is refused with the number: that of the number of tasks, of the first section with which it is, or of the
// thirteenth.
pub fn faulty_line(reading: Reading, number: u16) -> Option<u32>
    ensures { result ≡ faulty_line reading number }
{
    if is_refused(reading, number, 0) {
        return reading.first;
    }
    for (i, line) in reading.lines.iter().enumerate() {
        if is_refused(reading, number, i as u16 + 1) {
            return line_read(*line);
        }
    }
    reading.surplus
}

// The exported meter rows (rule 9). `vesztamor_meter` takes any bytes; the functions that write are given room for what they write.
ghost use Rattle.std.specs.Prelude.{◌≡◌, ◌+◌, ◌*◌, ◌≤◌, length};
ghost use Rattle.lent_bytes.specs.Writing.{stored};
ghost use Rattle.vesztamor.specs.Packed.{packed};
ghost use Rattle.vesztamor.specs.Metering.{meter_row_size, row_bytes, metered_bytes, meter_export};

use crate::answers::{refused, step_answer, unfit};
use image::phase_tag;
use lent_bytes::numbers::{put_four, put_one};
use meter::answer::{decided, rows_written};
use meter::row::row_of;
use model::{Row, ServerNo, State};

const METER_ROW_SIZE: usize = 17;

fn put_row(bytes: &mut [u8], at: usize, row: Row)
    requires { at + meter_row_size ≤ length bytes.old }
    ensures { bytes.new ≡ stored bytes.old at (row_bytes row) }
{
    put_one(bytes, at, phase_tag(row.phase));
    put_four(bytes, at + 1, row.budget);
    put_four(bytes, at + 5, row.own);
    put_four(bytes, at + 9, row.lent);
    put_four(bytes, at + 13, row.spin);
}

// The rows of the first n servers, from the first byte on.
fn put_rows(bytes: &mut [u8], st: State, n: u16)
    requires { meter_row_size * n ≤ length bytes.old }
    ensures { bytes.new ≡ metered_bytes st n bytes.old }
{
    for s in 0..n {
        let row = row_of(st, ServerNo(s));
        put_row(bytes, METER_ROW_SIZE * usize::from(s), row);
    }
}

// What each server has left and has accounted for, into the rows lent for it.
#[tactic(auto, unfolding(crate::specs::Metering::meter_export))]
pub fn vesztamor_meter(state: &[u8], rows: &mut [u8]) -> u64
    ensures answer { result ≡ packed (meter_export state.now rows.old).answer }
    ensures bytes { rows.new ≡ (meter_export state.now rows.old).bytes }
{
    if rows.len() % METER_ROW_SIZE != 0 {
        return unfit();
    }
    match image::reading::read(state) {
        Ok(held) => {
            let metered = decided(held, rows.len() / METER_ROW_SIZE);
            put_rows(rows, held, rows_written(metered));
            step_answer(metered)
        }
        Err(refusal) => refused(refusal),
    }
}

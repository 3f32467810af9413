// Tables that a caller hands over in bytes. Assumes nothing but what each function says.
ghost use Rattle.std.specs.Prelude.{◌≡◌, true};
ghost use Rattle.model.specs.Fresh.{no_entry};
ghost use Rattle.trace.specs.Reading.{entry_in};
ghost use Rattle.std.proofs.Common.{rules};
ghost use Rattle.vesztamor.specs.Tables.{is_table, table_in};

use crate::sized::{Row, is_sized, rows_in};
use lent_bytes::numbers::two_bytes;
use model::{Entry, Table};

impl Row for Entry {
    ghost HEADER = { 6 };

    ghost SIZE = { 10 };

    const HEADER: usize = 6;

    const SIZE: usize = 10;

    ghost read_at = { entry_in };

    ghost nothing = { no_entry };

    fn nothing() -> Entry {
        model::limits::no_entry()
    }

    fn read(bytes: &[u8], at: usize) -> Entry {
        trace::lines::entry_in(bytes, at)
    }

    ghost sizes = { Prim.search rules };
}

pub fn is_table(bytes: &[u8]) -> bool
    ensures { result ≡ is_table bytes.now }
{
    is_sized::<Entry>(bytes)
}

#[tactic(auto, using(crate::proofs::Lines::sized_least), unfolding(crate::specs::Tables::table_in))]
pub fn table_in(bytes: &[u8]) -> Table
    requires { is_table bytes.now ≡ true }
    ensures { result ≡ table_in bytes.now }
{
    Table {
        processors: two_bytes(bytes, 0),
        tasks: two_bytes(bytes, 2),
        resources: two_bytes(bytes, 4),
        entry: rows_in(bytes),
    }
}

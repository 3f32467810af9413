// A task's line of a table, as a trace has it in a record's body. The function is given an offset at which the line lies whole in
// the slice.
ghost use Rattle.std.specs.Prelude.{◌≡◌, ◌+◌, ◌≤◌, length};
ghost use Rattle.trace.specs.Reading.{entry_in};

use lent_bytes::numbers::{four_bytes, two_bytes};
use model::Entry;

#[tactic(auto, unfolding(crate::specs::Reading::entry_in))]
pub fn entry_in(file: &[u8], at: usize) -> Entry
    requires { at + 10 ≤ length file.now }
    ensures { result ≡ entry_in file.now at }
{
    let quota = four_bytes(file, at);
    let period = four_bytes(file, at + 4);
    let declared = two_bytes(file, at + 8);
    Entry {
        quota,
        period,
        declared,
    }
}

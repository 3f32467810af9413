// Tables that a caller hands over in bytes: a header of numbers of two bytes, the second of which says how many rows follow, and then the rows. The rows of
// either table are a type with `Row`. Assumes nothing but what each function says.
ghost use Rattle.std.specs.Prelude.{◌≡◌, true, List, ℕ, ◌+◌, ◌<◌, ◌≤◌, length};
ghost use Rattle.laws.specs.Loops.{made_by};
ghost use Rattle.vesztamor.specs.Tables.{is_sized, row_in};

use lent_bytes::numbers::two_bytes;
use std::array;

// A row, by the lengths of its table's header and of a row in bytes, what a row is read as, and what is read past the last.
pub trait Row: Copy {
    ghost HEADER: { ℕ };

    ghost SIZE: { ℕ };

    const HEADER: usize;

    const SIZE: usize;

    ghost read_at: { List ℕ → ℕ → Self };

    ghost nothing: { Self };

    fn nothing() -> Self
        ensures { result ≡ nothing };

    fn read(bytes: &[u8], at: usize) -> Self
        requires { at + SIZE ≤ length bytes.now }
        ensures { result ≡ read_at bytes.now at };

    ghost sizes: { (4 ≤ HEADER) × (HEADER < 256) × (SIZE < 256) };
}

// Whether the bytes are a header and as many rows as it says.
#[tactic(auto, unfolding(crate::specs::Tables::is_sized))]
pub fn is_sized<R: Row>(bytes: &[u8]) -> bool
    ensures { result ≡ is_sized R.HEADER R.SIZE bytes.now }
{
    bytes.len() >= R::HEADER
        && bytes.len() == R::HEADER + R::SIZE * usize::from(two_bytes(bytes, 2))
}

// Row i, or nothing past the count.
fn row_in<R: Row>(bytes: &[u8], i: usize) -> R
    requires { is_sized R.HEADER R.SIZE bytes.now ≡ true }
    ensures { result ≡ row_in R.read_at R.nothing R.HEADER R.SIZE bytes.now i }
{
    if i < usize::from(two_bytes(bytes, 2)) {
        R::read(bytes, R::HEADER + R::SIZE * i)
    } else {
        R::nothing()
    }
}

pub fn rows_in<R: Row, const N: usize>(bytes: &[u8]) -> [R; N]
    requires { is_sized R.HEADER R.SIZE bytes.now ≡ true }
    ensures { result ≡ made_by N (row_in R.read_at R.nothing R.HEADER R.SIZE bytes.now) R.nothing }
{
    array::from_fn(|i| row_in(bytes, i))
}

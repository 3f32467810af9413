// Text and decimal numbers, written from an offset on; each function answers the offset after what it wrote. Each is given a buffer that has room for the
// longest text that it can write.
ghost use Rattle.std.specs.Prelude.{◌+◌, ◌≤◌, length};
ghost use Rattle.lent_bytes.specs.Text.{digits, digits_most, decimal};
ghost use Rattle.lent_bytes.specs.Writing.{Wrote};

use crate::numbers::put_part;

// Enough for every number of 64 bits.
const DIGITS: usize = 20;

pub fn put_text(out: &mut [u8], at: usize, text: &[u8]) -> usize
    requires { at + length text.now ≤ length out.old }
    ensures { Wrote (length text.now) out.old at text.now out.new result }
{
    put_part(out, at, text);
    at + text.len()
}

// The last digits of n, at most so many.
fn put_digits(out: &mut [u8], at: usize, n: usize, left: usize) -> usize
    requires { at + left ≤ length out.old }
    ensures { Wrote left out.old at (digits left n) out.new result }
{
    if left == 0 {
        return at;
    }
    if n < 10 {
        out[at] = b'0' + (n % 10) as u8;
        return at + 1;
    }
    let next = put_digits(out, at, n / 10, left - 1);
    out[next] = b'0' + (n % 10) as u8;
    next + 1
}

pub fn put_number(out: &mut [u8], at: usize, n: usize) -> usize
    requires { at + digits_most ≤ length out.old }
    ensures { Wrote digits_most out.old at (decimal n) out.new result }
{
    put_digits(out, at, n, DIGITS)
}

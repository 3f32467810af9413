// Little-endian numbers, read from bytes and written into them. Each function is given an offset at which the number lies whole in the slice. Each width has a
// function of its own, one call of the library's method: a trait over the widths would be longer than they are.
ghost use Rattle.std.specs.Prelude.{◌≡◌, ◌+◌, ◌≤◌, length};
ghost use Rattle.lent_bytes.specs.Numbers.{two_bytes, four_bytes, one, two, four};
ghost use Rattle.lent_bytes.specs.Writing.{stored};

pub fn two_bytes(bytes: &[u8], at: usize) -> u16
    requires { at + 2 ≤ length bytes.now }
    ensures { result ≡ two_bytes bytes.now at }
{
    u16::from_le_bytes([bytes[at], bytes[at + 1]])
}

pub fn four_bytes(bytes: &[u8], at: usize) -> u32
    requires { at + 4 ≤ length bytes.now }
    ensures { result ≡ four_bytes bytes.now at }
{
    u32::from_le_bytes([bytes[at], bytes[at + 1], bytes[at + 2], bytes[at + 3]])
}

pub fn put_one(bytes: &mut [u8], at: usize, n: u8)
    requires { at + 1 ≤ length bytes.old }
    ensures { bytes.new ≡ stored bytes.old at (one n) }
{
    bytes[at] = n;
}

pub fn put_two(bytes: &mut [u8], at: usize, n: u16)
    requires { at + 2 ≤ length bytes.old }
    ensures { bytes.new ≡ stored bytes.old at (two n) }
{
    put_part(bytes, at, &n.to_le_bytes());
}

pub fn put_four(bytes: &mut [u8], at: usize, n: u32)
    requires { at + 4 ≤ length bytes.old }
    ensures { bytes.new ≡ stored bytes.old at (four n) }
{
    put_part(bytes, at, &n.to_le_bytes());
}

// Bytes as they come.
pub(crate) fn put_part(bytes: &mut [u8], at: usize, part: &[u8])
    requires { at + length part.now ≤ length bytes.old }
    ensures { bytes.new ≡ stored bytes.old at part.now }
{
    bytes[at..at + part.len()].copy_from_slice(part);
}

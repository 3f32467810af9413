// The buffers of a program that replays: for a file up to one byte past the limit, for the listing of every such file, and for that of a short one, so
// that a short trace is listed without a long buffer to clear. The contract also says how long a buffer is, so that no proof above has to write the
// zeros out. Assumes nothing.
ghost use Rattle.std.specs.Prelude.{◌≡◌, length, replicate};
ghost use Rattle.listing.specs.Replay.{file_bytes, text_bytes, short_text_bytes};

// Rule 13.7.
pub const FILE_LIMIT: usize = 60000;

// The room that a listing needs: so much for each byte of the file, and so much more.
pub const ROOM_EACH: usize = 13;

pub const ROOM_MORE: usize = 4000;

pub const FILE_BYTES: usize = FILE_LIMIT + 1;

pub const TEXT_BYTES: usize = ROOM_EACH * FILE_BYTES + ROOM_MORE;

// A file of so many bytes is short: some six hundred events.
pub const SHORT_FILE: usize = 4000;

pub const SHORT_TEXT_BYTES: usize = ROOM_EACH * SHORT_FILE + ROOM_MORE;

// So many zeros.
pub fn buffer<const N: usize>() -> [u8; N]
    ensures value { result ≡ replicate N 0 }
    ensures long { N ≡ length result }
{
    [0; N]
}

// Each of the three is `buffer`; that its length is the one of the definitions stands here, where the constants are.
pub fn file_buffer() -> [u8; FILE_BYTES]
    ensures value { result ≡ replicate file_bytes 0 }
    ensures long { file_bytes ≡ length result }
{
    buffer()
}

pub fn text_buffer() -> [u8; TEXT_BYTES]
    ensures value { result ≡ replicate text_bytes 0 }
    ensures long { text_bytes ≡ length result }
{
    buffer()
}

pub fn short_text_buffer() -> [u8; SHORT_TEXT_BYTES]
    ensures value { result ≡ replicate short_text_bytes 0 }
    ensures long { short_text_bytes ≡ length result }
{
    buffer()
}

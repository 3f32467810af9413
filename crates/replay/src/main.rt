// Replays the trace on standard input and writes its listing to standard output. What matters is in the crate `listing`; here is what reads and writes,
// of which no contract can speak.
#![tactic(auto)]

ghost use Rattle.std.specs.Prelude.{◌≡◌, ◌≤◌, length, take, IfOk};
ghost use Rattle.listing.specs.Listing.{listing};
ghost use Rattle.listing.specs.Replay.{room};

use listing::buffers::{SHORT_FILE, file_buffer, short_text_buffer, text_buffer};
use listing::whole::replay;
use std::io;
use std::io::Read;

// Reads until the buffer is full or the input ends, and answers how many bytes were read.
fn read_all(rt: &impl io::Input, file: &mut [u8]) -> io::Result<usize>
    ensures { IfOk result (λ n. n ≤ length file.new) }
{
    let mut input = rt.reader();
    let mut n: usize = 0;
    while n < file.len() {
        let more = input.read(&mut file[n..])?;
        if more == 0 {
            break;
        }
        n += more;
    }
    Ok(n)
}

// How many bytes of the buffer, which is long enough, are to be printed: they are the listing, and no more.
fn put_whole(file: &[u8], out: &mut [u8]) -> usize
    requires { room (length file.now) ≤ length out.old }
    ensures { (take result out.new ≡ listing file.now) × (result ≤ length out.new) }
{
    replay(file, out).unwrap_or(0)
}

// Writes the listing to standard output, by way of the buffer. Where a write fails, a line on standard error says so.
fn print(rt: &(impl Print + Eprint), file: &[u8], out: &mut [u8])
    requires { room (length file.now) ≤ length out.old }
{
    let written = put_whole(file, out);
    if let Err(error) = rt.write_all(&out[..written]) {
        let _ = eprintln!(rt;
            "replay: the listing is not whole, look at where standard output goes: {error}"
        );
    }
}

fn main(rt: HostRuntime) {
    let mut file = file_buffer();
    let n = match read_all(&rt, &mut file) {
        Ok(n) => n,
        Err(error) => {
            let _ = eprintln!(rt;
                "replay: no listing, give a trace that can be read on standard input: {error}"
            );
            return;
        }
    };
    // A short trace has a short buffer to clear.
    if n <= SHORT_FILE {
        print(&rt, &file[..n], &mut short_text_buffer());
    } else {
        print(&rt, &file[..n], &mut text_buffer());
    }
}

// Reads a move list on standard input, plays it on a fresh controller of its flag and prints the listing.
#![tactic(auto)]

ghost use Rattle.std.specs.Io.{ReadsAtMost};

use listing_text::{MOST_BYTES, TEXT_BYTES};
use std::io;
use std::io::Read;

// Reads until the buffer is full or the input ends, and answers how many bytes it put at the buffer's start.
// A loop of its own: `read_to_end` wants a heap, and of an input that ends early `read_exact` tells no length.
fn read_full<R: Read>(input: &mut R, buf: &mut [u8]) -> io::Result<usize>
    ensures { ReadsAtMost result buf.new }
{
    let mut done = 0;
    while done < buf.len() {
        let n = input.read(&mut buf[done..])?;
        if n == 0 {
            break;
        }
        done += n;
    }
    Ok(done)
}

fn main(rt: HostRuntime) -> io::Result<()> {
    // one byte more than the longest input that is played
    let mut input = [0u8; MOST_BYTES + 1];
    let n = read_full(&mut rt.stdin(), &mut input)?;
    let mut out = [0u8; TEXT_BYTES];
    let k = listing_text::print_list(&input[..n], &mut out);
    rt.write_all(&out[..k])
}

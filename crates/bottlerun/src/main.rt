// Plans the moves of the route sheet on standard input, and prints a line for each.
//
// A sheet may have 65,535 bytes. One byte more is read, so that the report itself can tell a sheet that is too long. A read that
// fails counts as the end of the input. A write that fails ends the program with its error, and status 1.
#![tactic(auto)]

ghost use Rattle.std.specs.Prelude.{◌≤◌, length, take};
ghost use Rattle.std.specs.Io.KnownBytes.{Consumes};

use route_sheet::REPORT_BYTES;
use std::io;
use std::io::{Read, Write};

const READ_BYTES: usize = 65536;

fn main(rt: HostRuntime) -> io::Result<()> {
    let mut text = [0u8; READ_BYTES];
    let n = read_full(&mut rt.stdin(), &mut text);
    let mut out = [0u8; REPORT_BYTES];
    let count = route_sheet::report(&text[..n], &mut out);
    rt.stdout().write_all(&out[..count])
}

// Reads until `text` is full, the input ends or a read fails, and answers how many bytes it put at the start of `text`. These are all that
// it took of the input, in their order. The loop is by hand: `read_exact` tells no count where the input ends before, and `read_to_end`
// needs a heap.
fn read_full<R: Read>(input: &mut R, text: &mut [u8]) -> usize
    ensures within { result ≤ length text.new }
    ensures bytes { Consumes (R.remaining input.old) (R.remaining input.new) (take result text.new) }
{
    let mut done = 0;
    while done < text.len() {
        match input.read(&mut text[done..]) {
            Ok(n) if 0 < n => done += n,
            _ => break,
        }
    }
    done
}

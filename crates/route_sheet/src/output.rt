// The report's bytes: texts put one after the other. `write!` into a lent slice promises no exact bytes. The buffer and the offset stay two
// parameters: a struct of both, lent for each put, needs a clause for each of its fields where `Puts` says all.
ghost use Rattle.std.specs.Prelude.{◌≡◌};
ghost use Rattle.route_sheet.specs.Text.{decimal};
ghost use Rattle.route_sheet.specs.Inner.Output.{Puts, Room, line_text};

use crate::REPORT_BYTES;
use itoa::Buffer;

// Puts `text` from offset `at` on, and answers the offset after it. `copy_from_slice` would call `memmove`, which nothing else in the archive
// needs.
fn put(out: &mut [u8; REPORT_BYTES], at: usize, text: &[u8]) -> usize
    requires { Room at text.now }
    ensures { Puts out.old at text.now result out.new }
{
    for (i, byte) in text.iter().enumerate() {
        out[at + i] = *byte;
    }
    at + text.len()
}

// The decimal of n, written in the buffer.
fn digits(buffer: &mut Buffer, n: u64) -> &[u8]
    ensures { result.now ≡ decimal n }
{
    buffer.format(n).as_bytes()
}

// Puts a line of words, each with its number after it. It is inlined, so that the fields stay out of memory.
#[tactic(auto, using(crate::proofs::OutputLaws::line_steps))]
#[inline(always)]
pub(crate) fn put_line(out: &mut [u8; REPORT_BYTES], at: usize, fields: &[(&str, u64)]) -> usize
    requires { Room at (line_text fields.now) }
    ensures { Puts out.old at (line_text fields.now) result out.new }
{
    let mut buffer = Buffer::new();
    let mut end = at;
    for (word, n) in fields {
        end = put(out, end, word.as_bytes());
        end = put(out, end, digits(&mut buffer, *n));
    }
    put(out, end, b"\n")
}

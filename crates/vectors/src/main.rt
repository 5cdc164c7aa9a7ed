// Answers each request of standard input. It holds no expectation: the stored answers are those of the reference, which was written from
// the paper alone.
//
// A request is a line: a letter, in third order after a 3 and a space, numbers with one space before each, and byte 10. A number is decimal,
// and X and the start may have a minus; or it is `x` and hexadecimal digits in lower case. The machine's numbers m1 to c are the bits of
// floats. The requests and their answers:
//
// p X V A J S start: planned a b c e D shortfall
// s X V A J S start k: sample snap jerk acceleration velocity position count remainder
// t X V A J S start places first: rows R, places of the position table, sum S
// r X V A J S start places first: rows R, places of the reference table, sum S
// f X V A J S start m1 m2 k1 k2 k12 c places first: rows R, places of the force table as the bits of floats, sum S
// b n length: read SETS MOVES sum S, or refused 11 line L sum S, or refused 12 sum S; then the report
// P count and eight times X V A J S start: planned N, or refused R place L; then eight times a b c e D shortfall
// S count and eight times X V A J S start, k: sample, or refused R place L; then eight times the numbers of a sample, as above
// 3 p X V A J S start: planned b c e jerk shortfall, in third order
// 3 s, 3 t and 3 r, each with the numbers of its letter: the same in third order
//
// A move that is refused has `refused N` for its plan, its sample or its rows. A table is lent with the number of places that is asked for,
// at most 4,200, and written from place `first` on, at most 12 places. The n bytes after a line of kind b are the start of a sheet's text,
// which zeros fill up to its length: n is at most the length, and that at most 65,536. The sum is taken over every place after the call,
// those of a sheet's sets and moves too. It starts at 0, and each place makes it 33 times itself and the place's 64 bits, modulo 2^64.
#![tactic(auto)]

mod axes;
mod forces;
mod moves;
mod numbers;
mod positions;
mod sheets;
mod sums;
mod tables;
mod writing;

use crate::axes::{answer_axes_plan, answer_axes_sample};
use crate::forces::answer_forces;
use crate::moves::{answer_plan, answer_sample};
use crate::numbers::read_byte;
use crate::positions::answer_rows;
use crate::sheets::answer_sheet;
use motion::{Fourth, Third};
use planner::Move;
use std::io;
use std::io::{Read, Write};

// Neither end is buffered, so that each answer is there before the next request is read. They go side by side: readers take the one, writers
// the other.
fn main(rt: HostRuntime) -> io::Result<()> {
    answer_all(&mut rt.stdin(), &mut rt.stdout())
}

// The count of requests is bounded, so that the loop ends whatever is read.
fn answer_all<R: Read, W: Write>(input: &mut R, out: &mut W) -> io::Result<()> {
    for _ in 0..1_000_000u64 {
        let kind = read_byte(input)?;
        if kind == 0 {
            return Ok(());
        }
        answer(input, out, kind)?;
    }
    Ok(())
}

// Skips the space after the letter, and answers what is asked for. The letters are the format of a request.
fn answer<R: Read, W: Write>(input: &mut R, out: &mut W, kind: u8) -> io::Result<()> {
    read_byte(input)?;
    match kind {
        b'p' => answer_plan(input, out, |m: &Move| planner::plan_move(m)),
        b's' => answer_sample::<Fourth, R, W>(input, out),
        b't' => answer_rows(
            input,
            out,
            |m: &Move, table: &mut [i64]| motion::fill_positions::<Fourth>(m, table),
        ),
        b'r' => answer_rows(
            input,
            out,
            |m: &Move, table: &mut [i64]| motion::fill_reference::<Fourth>(m, table),
        ),
        b'f' => answer_forces(input, out),
        b'b' => answer_sheet(input, out),
        b'P' => answer_axes_plan(input, out),
        b'S' => answer_axes_sample(input, out),
        b'3' => answer_third(input, out),
        _ => write_unknown(out),
    }
}

// The same in third order, with the letter after the 3.
fn answer_third<R: Read, W: Write>(input: &mut R, out: &mut W) -> io::Result<()> {
    let kind = read_byte(input)?;
    read_byte(input)?;
    match kind {
        b'p' => answer_plan(input, out, |m: &Move| planner::plan_third(m)),
        b's' => answer_sample::<Third, R, W>(input, out),
        b't' => answer_rows(
            input,
            out,
            |m: &Move, table: &mut [i64]| motion::fill_positions::<Third>(m, table),
        ),
        b'r' => answer_rows(
            input,
            out,
            |m: &Move, table: &mut [i64]| motion::fill_reference::<Third>(m, table),
        ),
        _ => write_unknown(out),
    }
}

fn write_unknown<W: Write>(out: &mut W) -> io::Result<()> {
    out.write_all(b"unknown kind\n")
}

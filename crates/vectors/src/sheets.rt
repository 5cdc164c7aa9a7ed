// What is read from a sheet's text, and the report.
use crate::numbers::{read_at_most, read_number, read_text};
use crate::sums::{sum_with, write_sum};
use route_sheet::{REPORT_BYTES, SheetReading, SheetRefusal};
use std::io;
use std::io::{Read, Write};

// One more than a sheet may have, so that one is too long.
const MOST_BYTES: usize = 65536;

pub(crate) fn answer_sheet<R: Read, W: Write>(input: &mut R, out: &mut W) -> io::Result<()> {
    let n = read_number(input)? as usize;
    let length = read_at_most(input, MOST_BYTES)?;
    let mut text = [0u8; MOST_BYTES];
    read_text(input, &mut text[..n.min(length)])?;
    write_reading(out, &text[..length])?;
    write_report(out, &text[..length])
}

fn write_report<W: Write>(out: &mut W, text: &[u8]) -> io::Result<()> {
    let mut report = [0u8; REPORT_BYTES];
    let count = route_sheet::report(text, &mut report);
    out.write_all(&report[..count])
}

fn write_reading<W: Write>(out: &mut W, text: &[u8]) -> io::Result<()> {
    match route_sheet::read_sheet(text) {
        Ok(sheet) => {
            write!(out, "read {} {}", sheet.set_count, sheet.move_count)?;
            write_sum(out, sum_of(&sheet))
        }
        Err(refusal) => {
            write!(out, "refused {}", refusal.number())?;
            if let SheetRefusal::Malformed { line } = refusal {
                write!(out, " line {line}")?;
            }
            write_sum(out, 0)
        }
    }
}

// Over the places of the sets, and then of the moves.
fn sum_of(sheet: &SheetReading) -> u64 {
    let mut sum = 0;
    for set in &sheet.sets {
        for bound in [set.velocity, set.acceleration, set.jerk, set.snap] {
            sum = sum_with(sum, bound);
        }
    }
    for m in &sheet.moves {
        sum = sum_with(sum_with(sum, m.displacement.cast_unsigned()), m.set);
    }
    sum
}

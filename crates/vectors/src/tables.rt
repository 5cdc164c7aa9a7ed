// Tables of any places: what an entry answers, some places, and the sum over all.
use crate::numbers::{read_at_most, read_number};
use crate::sums::{sum_with, write_sum};
use crate::writing::write_answer;
use motion::MotionRefusal;
use std::io;
use std::io::{Read, Write};

// More than the rows of any table.
pub(crate) const MOST_PLACES: usize = 4200;

// A place of a table, as it is written and as it is summed.
pub(crate) trait Place: Copy {
    fn write<W: Write>(self, out: &mut W) -> io::Result<()>;

    fn bits(self) -> u64;
}

// Fills as many of these places as are asked for, and writes 12 of them.
pub(crate) fn answer_table<
    P: Place,
    F: FnOnce(&mut [P]) -> Result<usize, MotionRefusal>,
    R: Read,
    W: Write,
>(input: &mut R, out: &mut W, places: &mut [P; MOST_PLACES], fill: F) -> io::Result<()>
    requires { F.IsAlwaysCallable fill }
{
    let end = read_at_most(input, MOST_PLACES)?;
    let first = read_number(input)? as usize;
    let table = &mut places[..end];
    write_answer(out, b"rows", &fill(table).map(|rows| rows as u64))?;
    write_places(out, table, first)
}

fn write_places<P: Place, W: Write>(out: &mut W, table: &[P], first: usize) -> io::Result<()> {
    let mut sum = 0;
    for (i, place) in table.iter().enumerate() {
        if first <= i && i - first < 12 {
            place.write(out)?;
        }
        sum = sum_with(sum, place.bits());
    }
    write_sum(out, sum)
}

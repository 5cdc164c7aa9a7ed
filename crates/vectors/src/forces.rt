// Tables of force rows.
mod patterns;

use crate::forces::patterns::{bits_of, float_of};
use crate::moves::read_move;
use crate::numbers::read_number;
use crate::tables::{MOST_PLACES, Place, answer_table};
use motion::Machine;
use std::io;
use std::io::{Read, Write};

// What each place holds before the call: 2^900, above every force.
const MARK: f64 = 8.452712498170644e270;

impl Place for f64 {
    fn write<W: Write>(self, out: &mut W) -> io::Result<()> {
        write!(out, " x{:016x}", bits_of(self))
    }

    fn bits(self) -> u64 {
        bits_of(self)
    }
}

pub(crate) fn answer_forces<R: Read, W: Write>(input: &mut R, out: &mut W) -> io::Result<()> {
    let requested = read_move(input)?;
    let machine = read_machine(input)?;
    answer_table(
        input,
        out,
        &mut [MARK; MOST_PLACES],
        |table: &mut [f64]| motion::fill_force(&requested, machine, table),
    )
}

fn read_machine<R: Read>(input: &mut R) -> io::Result<Machine> {
    Ok(Machine {
        m1: float_of(read_number(input)?),
        m2: float_of(read_number(input)?),
        k1: float_of(read_number(input)?),
        k2: float_of(read_number(input)?),
        k12: float_of(read_number(input)?),
        c: float_of(read_number(input)?),
    })
}

// A move, its plan and one sample of it, in either order.
use crate::numbers::{read_number, read_signed};
use crate::writing::{Numbers, write_answer};
use motion::Order;
use planner::{Move, Refusal};
use std::io;
use std::io::{Read, Write};

pub(crate) fn read_move<R: Read>(input: &mut R) -> io::Result<Move> {
    Ok(Move {
        displacement: read_signed(input)?,
        velocity: read_number(input)?,
        acceleration: read_number(input)?,
        jerk: read_number(input)?,
        snap: read_number(input)?,
        start: read_signed(input)?,
    })
}

pub(crate) fn answer_plan<
    P: Numbers + Drop,
    F: FnOnce(&Move) -> Result<P, Refusal>,
    R: Read,
    W: Write,
>(input: &mut R, out: &mut W, plan: F) -> io::Result<()>
    requires { F.IsAlwaysCallable plan }
{
    let requested = read_move(input)?;
    write_answer(out, b"planned", &plan(&requested))?;
    out.write_all(b"\n")
}

pub(crate) fn answer_sample<O: Order, R: Read, W: Write>(
    input: &mut R,
    out: &mut W,
) -> io::Result<()> {
    let requested = read_move(input)?;
    let k = read_number(input)?;
    write_answer(out, b"sample", &motion::sample_move::<O>(&requested, k))?;
    out.write_all(b"\n")
}

// Sets of axes: their plans, and one sample of them. All eight places are written, at a refusal too.
use crate::moves::read_move;
use crate::numbers::read_number;
use crate::writing::{Numbers, write_answer};
use planner::{MOST_AXES, Move};
use std::io;
use std::io::{Read, Write};

pub(crate) fn answer_axes_plan<R: Read, W: Write>(input: &mut R, out: &mut W) -> io::Result<()> {
    let count = read_number(input)?;
    let answer = planner::plan_axes(count, read_moves(input)?);
    write_answer(out, b"planned", &answer.map(|set| set.samples))?;
    write_places(out, &answer.map(|set| set.plans))
}

pub(crate) fn answer_axes_sample<R: Read, W: Write>(input: &mut R, out: &mut W) -> io::Result<()> {
    let count = read_number(input)?;
    let moves = read_moves(input)?;
    let answer = motion::sample_axes(count, moves, read_number(input)?);
    write_answer(out, b"sample", &answer.map(|_| ()))?;
    write_places(out, &answer)
}

fn read_moves<R: Read>(input: &mut R) -> io::Result<[Move; MOST_AXES]> {
    let mut moves = [Move::default(); MOST_AXES];
    for m in moves.iter_mut() {
        *m = read_move(input)?;
    }
    Ok(moves)
}

// Zeros at a refusal.
fn write_places<T: Numbers + Copy + Default, E, W: Write>(
    out: &mut W,
    answer: &Result<[T; MOST_AXES], E>,
) -> io::Result<()> {
    match answer {
        Ok(places) => {
            for place in places {
                place.write_numbers(out)?;
            }
        }
        Err(_) => {
            for _ in 0..MOST_AXES {
                T::default().write_numbers(out)?;
            }
        }
    }
    out.write_all(b"\n")
}

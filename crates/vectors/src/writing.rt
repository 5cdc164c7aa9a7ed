// Answers: numbers with a space before each, or a refusal.
use motion::{MotionRefusal, Sample};
use planner::{AxisRefusal, Plan, Refusal, ThirdPlan};
use std::io;
use std::io::Write;

// What is written as numbers after the word that begins an answer: no `Display`, since these are other crates' types.
pub(crate) trait Numbers {
    fn write_numbers<W: Write>(&self, out: &mut W) -> io::Result<()>;
}

impl Numbers for () {
    fn write_numbers<W: Write>(&self, _out: &mut W) -> io::Result<()> {
        Ok(())
    }
}

impl Numbers for u64 {
    fn write_numbers<W: Write>(&self, out: &mut W) -> io::Result<()> {
        write!(out, " {self}")
    }
}

impl Numbers for Plan {
    fn write_numbers<W: Write>(&self, out: &mut W) -> io::Result<()> {
        write!(out, " {} {} {} {}", self.a, self.b, self.c, self.e)?;
        write!(out, " {} {}", self.snap, self.shortfall)
    }
}

impl Numbers for ThirdPlan {
    fn write_numbers<W: Write>(&self, out: &mut W) -> io::Result<()> {
        write!(out, " {} {} {}", self.b, self.c, self.e)?;
        write!(out, " {} {}", self.jerk, self.shortfall)
    }
}

impl Numbers for Sample {
    fn write_numbers<W: Write>(&self, out: &mut W) -> io::Result<()> {
        write!(out, " {} {} {}", self.snap, self.jerk, self.acceleration)?;
        write!(out, " {} {}", self.velocity, self.position)?;
        write!(out, " {} {}", self.count, self.remainder)
    }
}

// What is written of a refusal: its number, and where it has one the place of its axis.
pub(crate) trait Refused {
    fn number(&self) -> u64;

    fn place(&self) -> Option<u64> {
        None
    }
}

impl Refused for Refusal {
    fn number(&self) -> u64 {
        Refusal::number(*self)
    }
}

impl Refused for MotionRefusal {
    fn number(&self) -> u64 {
        MotionRefusal::number(*self)
    }
}

impl<R: Refused> Refused for AxisRefusal<R> {
    fn number(&self) -> u64 {
        self.refusal.number()
    }

    fn place(&self) -> Option<u64> {
        Some(self.place)
    }
}

pub(crate) fn write_refused<E: Refused, W: Write>(out: &mut W, refusal: &E) -> io::Result<()> {
    write!(out, "refused {}", refusal.number())?;
    if let Some(place) = refusal.place() {
        write!(out, " place {place}")?;
    }
    Ok(())
}

// An answer: a word and its numbers, or its refusal.
pub(crate) fn write_answer<T: Numbers, E: Refused, W: Write>(
    out: &mut W,
    word: &[u8],
    answer: &Result<T, E>,
) -> io::Result<()> {
    match answer {
        Ok(given) => {
            out.write_all(word)?;
            given.write_numbers(out)
        }
        Err(refusal) => write_refused(out, refusal),
    }
}

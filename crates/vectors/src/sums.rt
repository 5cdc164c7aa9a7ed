// A sum over all places, so that none differs unseen.
use std::io;
use std::io::Write;

pub(crate) fn sum_with(sum: u64, bits: u64) -> u64 {
    sum.wrapping_mul(33).wrapping_add(bits)
}

pub(crate) fn write_sum<W: Write>(out: &mut W, sum: u64) -> io::Result<()> {
    write!(out, " sum {sum}\n")
}

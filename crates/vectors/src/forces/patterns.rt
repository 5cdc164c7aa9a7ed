// Floats as their 64 bits, so that every digit and the sign of a zero count. Which of its many patterns a NaN has is not defined: all of
// them are read alike, and one is written.

// The bit that stands for the sign.
const SIGN: u64 = 0x8000_0000_0000_0000;

const INFINITY: u64 = 0x7ff0_0000_0000_0000;

const NAN: u64 = 0x7ff8_0000_0000_0000;

// A NaN's pattern without its sign is above infinity's.
pub(crate) fn float_of(bits: u64) -> f64 {
    if INFINITY < bits % SIGN {
        return f64::NAN;
    }
    f64::from_bits(bits)
}

pub(crate) fn bits_of(x: f64) -> u64 {
    if x.is_nan() { NAN } else { x.to_bits() }
}

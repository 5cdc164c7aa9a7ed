// The numbers of a request, read byte by byte, since only the letter and the numbers tell where a request ends.
ghost use Rattle.std.specs.Prelude.{◌≤◌, IfOk};

use std::io;
use std::io::Read;

// 0 at the end of the input. Each reader takes both alike, so that an `Option` would say no more.
pub(crate) fn read_byte<R: Read>(input: &mut R) -> io::Result<u8> {
    let mut place = [0u8; 1];
    if input.read(&mut place)? == 0 {
        return Ok(0);
    }
    Ok(place[0])
}

// Reads until `text` is full or the input ends: `read_exact` would take the end for an error.
pub(crate) fn read_text<R: Read>(input: &mut R, text: &mut [u8]) -> io::Result<()> {
    let mut done = 0;
    while done < text.len() {
        let n = input.read(&mut text[done..])?;
        if n == 0 {
            return Ok(());
        }
        done += n;
    }
    Ok(())
}

// Reads a number and the byte after it. One below 0 is given in two's complement.
pub(crate) fn read_number<R: Read>(input: &mut R) -> io::Result<u64> {
    let first = read_byte(input)?;
    match first {
        b'-' => Ok(read_digits(input, 0, 10)?.wrapping_neg()),
        b'x' => read_digits(input, 0, 16),
        _ => read_digits(input, with_digit(0, 10, first), 10),
    }
}

pub(crate) fn read_signed<R: Read>(input: &mut R) -> io::Result<i64> {
    Ok(read_number(input)?.cast_signed())
}

// A number, or `most` where that is less.
pub(crate) fn read_at_most<R: Read>(input: &mut R, most: usize) -> io::Result<usize>
    ensures { IfOk result (λ n. n ≤ most) }
{
    Ok((read_number(input)? as usize).min(most))
}

// The number whose first digits are `first`, and whose others end at the next space or line end. Any number has less than 24.
fn read_digits<R: Read>(input: &mut R, first: u64, base: u64) -> io::Result<u64> {
    let mut number = first;
    for _ in 0..24u64 {
        let byte = read_byte(input)?;
        if byte <= b' ' {
            return Ok(number);
        }
        number = with_digit(number, base, byte);
    }
    Ok(number)
}

// The low four bits of a letter are 1 for `a`, and only a letter is above 63.
fn with_digit(number: u64, base: u64, byte: u8) -> u64 {
    let digit = (byte % 16 + byte / 64 * 9) as u64;
    number.wrapping_mul(base).wrapping_add(digit)
}

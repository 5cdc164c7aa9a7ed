// A number of the sheet, with its span and the byte that ends it.
ghost use Rattle.std.specs.Prelude.{◌≡◌, ◌≤◌, IfOk};
ghost use Rattle.route_sheet.specs.Inner.Reading.{begins, goes_on, read_digits, read_number};
ghost use Rattle.route_sheet.specs.Inner.Parts.{seen};

use crate::malformed::Malformed;

// Whether b is the first digit of a number of the span.
fn begins_number(least: u64, most: u64, b: u8) -> bool
    ensures { result ≡ begins least most b }
{
    b.is_ascii_digit() && (least..=most).contains(&u64::from(b - b'0'))
}

// Whether the digit b can follow a number n. Its product is made only where it fits.
fn goes_on(most: u64, n: u64, b: u8) -> bool
    ensures { result ≡ goes_on most n b }
{
    b.is_ascii_digit() && 0 < n && n <= most / 10 && u64::from(b - b'0') <= most - 10 * n
}

// The number whose digits so far make `first`.
#[tactic(auto, unfolding(crate::specs::Inner::Reading::read_digits))]
fn read_digits(text: &[u8], first: u64, most: u64, end: u8) -> Result<(u64, &[u8]), Malformed<'_>>
    requires { first ≤ most }
    ensures reads { seen result ≡ read_digits most end first text.now }
    ensures at_most { IfOk result (λ x. x.0 ≤ most) }
{
    let mut n = first;
    for (i, b) in text.iter().enumerate() {
        if *b == end {
            return Ok((n, &text[i + 1..]));
        }
        if !goes_on(most, n, *b) {
            return Err(Malformed { rest: &text[i..] });
        }
        n = 10 * n + u64::from(*b - b'0');
    }
    Err(Malformed { rest: &[] })
}

// The number that the text begins with, if it is from `least` to `most` and `end` ends it.
#[tactic(auto, unfolding(crate::specs::Inner::Reading::read_number))]
pub(crate) fn read_number(
    text: &[u8],
    least: u64,
    most: u64,
    end: u8,
) -> Result<(u64, &[u8]), Malformed<'_>>
    ensures reads { seen result ≡ read_number least most end text.now }
    ensures at_most { IfOk result (λ x. x.0 ≤ most) }
{
    let [b, rest @ ..] = text else {
        return Err(Malformed { rest: text });
    };
    if !begins_number(least, most, *b) {
        return Err(Malformed { rest: text });
    }
    read_digits(rest, u64::from(*b - b'0'), most, end)
}

//! Parses decimal numbers in strict form.

ghost use Rattle.std.specs.Prelude.{◌≡◌, ◌^◌};
ghost use Rattle.std.specs.Str.{bytes_eq};
ghost use Rattle.text_lines.specs.Numbers.{number_read};

use itoa::Buffer;
use std::str;

/// Returns whether two texts are equal.
fn is(text: &[u8], other: &[u8]) -> bool
    ensures { result ≡ bytes_eq text.now other.now }
{
    text == other
}

/// Parses a `u64` in strict decimal form: digits only, without a sign and without leading zeros.
pub fn read_number(text: &[u8]) -> Option<u64>
    ensures { result ≡ number_read (2 ^ 64) text.now }
{
    let number = str::from_utf8(text).ok()?.parse::<u64>().ok()?;
    let mut digits = Buffer::new();
    if is(digits.format(number).as_bytes(), text) {
        Some(number)
    } else {
        None
    }
}

/// Parses a number in strict decimal form that is below `limit`.
pub fn read_below(text: &[u8], limit: u64) -> Option<u64>
    ensures { result ≡ number_read limit text.now }
{
    let number = read_number(text)?;
    if number < limit { Some(number) } else { None }
}

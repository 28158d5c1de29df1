//! Splits a text into lines at newlines.

ghost use Rattle.std.specs.Prelude.{◌≡◌, ◌<◌, ◌≤◌, [], ◌∷◌, false, length, IfSome, IfNone, IfOk, ◌++◌, true};
ghost use Rattle.std.specs.Option.{option_map};
ghost use Rattle.std.specs.Str.{is_utf8};
ghost use Rattle.text_lines.specs.Lines.{after_lines, cut, ended, has_byte, lines_of, newlines};

use memchr::memchr;
use std::alloc::{AllocError, Allocator};
use std::str;

/// Returns the text before the first occurrence of a byte and the text after it, or `None` if the byte does not occur.
pub fn cut(mark: u8, text: &[u8]) -> Option<(&[u8], &[u8])>
    ensures { option_map (λ parts. (parts.0.now, parts.1.now)) result ≡ cut mark text.now }
{
    let at = memchr(mark, text)?;
    Some((&text[..at], &text[at + 1..]))
}

/// Returns the first line of a nonempty text, without its newline, and the text after it.
pub fn first_line(text: &[u8]) -> (&[u8], &[u8])
    requires { 0 < length text.now }
    ensures lines { lines_of text.now ≡ result.0.now ∷ lines_of result.1.now }
    ensures one { has_byte 10 result.0.now ≡ false }
    ensures shorter { length result.1.now < length text.now }
{
    match cut(b'\n', text) {
        Some(parts) => parts,
        None => (text, &[]),
    }
}

/// Returns the first line of a text, without its newline, and the text after it, or `None` if the text is empty. The
/// last line may lack its newline.
pub fn next_line(text: &[u8]) -> Option<(&[u8], &[u8])>
    ensures lines { IfSome result (λ parts.
        lines_of text.now ≡ parts.0.now ∷ lines_of parts.1.now) }
    ensures one { IfSome result (λ parts. has_byte 10 parts.0.now ≡ false) }
    ensures shorter { IfSome result (λ parts. length parts.1.now < length text.now) }
    ensures none { IfNone result (text.now ≡ []) }
{
    if text.is_empty() {
        return None;
    }
    Some(first_line(text))
}

/// Returns the text after the given number of newline-terminated lines, or `None` if there are fewer.
pub fn after_lines(count: usize, text: &[u8]) -> Option<&[u8]>
    ensures { option_map (λ rest. rest.now) result ≡ after_lines count text.now }
{
    let mut rest = text;
    for _ in 0..count {
        (_, rest) = cut(b'\n', rest)?;
    }
    Some(rest)
}

/// Returns the number of newlines in a text.
pub fn newlines(text: &[u8]) -> usize
    ensures value { result ≡ newlines text.now }
    ensures within { result ≤ length text.now }
{
    let mut count = 0;
    for byte in text {
        if *byte == b'\n' {
            count += 1;
        }
    }
    count
}

/// Returns whether the last line of a text lacks its newline.
fn is_open(text: &[u8]) -> bool
    ensures open { result ≡ true → ended text.now ≡ text.now ++ 10 ∷ [] }
    ensures closed { result ≡ false → ended text.now ≡ text.now }
{
    match text.last() {
        Some(byte) => *byte != b'\n',
        None => false,
    }
}

/// Returns a copy of a text with a newline appended if its last line lacks one.
pub fn ended<A: Allocator>(alloc: A, text: &[u8]) -> Result<Vec<u8, A>, AllocError>
    ensures { IfOk result (λ whole. whole.items ≡ ended text.now) }
{
    let mut whole = Vec::new(alloc);
    whole.extend_from_slice(text)?;
    if is_open(text) {
        whole.push(b'\n')?;
    }
    Ok(whole)
}

/// Returns whether a text is valid UTF-8.
pub fn is_utf8(text: &[u8]) -> bool
    ensures { result ≡ is_utf8 text.now }
{
    str::from_utf8(text).is_ok()
}

//! Lines of a script, for messages about them.

ghost use Rattle.std.specs.Prelude.{◌≡◌};
ghost use Rattle.initd_command.specs.Lines.{front_line, line_at, line_told};

use text_lines::{after_lines, cut};

/// Returns the text before the first newline, or all of it if there is none.
pub(crate) fn front_line(text: &[u8]) -> &[u8]
    ensures { result.now ≡ front_line text.now }
{
    match cut(b'\n', text) {
        Some((line, _)) => line,
        None => text,
    }
}

/// Returns the line with this number, counted from 1; empty if there is none.
pub(crate) fn line_at(number: u64, text: &[u8]) -> &[u8]
    ensures { result.now ≡ line_at number text.now }
{
    match after_lines(number.saturating_sub(1) as usize, text) {
        Some(rest) => front_line(rest),
        None => &[],
    }
}

/// Returns a script line as it is shown in reports. For a line with a table, that is only the first word.
pub(crate) fn line_told(line: &[u8]) -> &[u8]
    ensures { result.now ≡ line_told line.now }
{
    if line.starts_with(b"use ") {
        b"use"
    } else {
        line
    }
}

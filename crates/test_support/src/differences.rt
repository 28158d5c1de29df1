//! Messages about differences between the actual and the expected texts of a test.

use std::alloc::{AllocError, Global};
use std::str;
use text_lines::{after_lines, cut, newlines};

fn line_at(position: usize, text: &[u8]) -> &[u8] {
    match after_lines(position, text) {
        Some(rest) => match cut(b'\n', rest) {
            Some((line, _)) => line,
            None => rest,
        },
        None => &[],
    }
}

fn shown(line: &[u8]) -> &str {
    if line.is_empty() {
        return "nothing";
    }
    str::from_utf8(line).unwrap_or("?")
}

fn line_difference(
    alloc: Global,
    what: &str,
    got: &[u8],
    want: &[u8],
) -> Result<String, AllocError> {
    for position in 0..=newlines(got).max(newlines(want)) {
        let (one, other) = (line_at(position, got), line_at(position, want));
        if one != other {
            let number = position.saturating_add(1);
            let (one, other) = (shown(one), shown(other));
            return format!(in alloc; "{what}, line {number}, is: {one}\n    and not: {other}");
        }
    }
    format!(in alloc; "{what} ends with a newline, or doesn't")
}

/// Returns the first name whose actual and expected texts differ, with the first line that does; empty if all are
/// equal.
pub fn difference(alloc: Global, texts: &[(&str, &[u8], &[u8])]) -> Result<String, AllocError> {
    for (what, got, want) in texts {
        if got != want {
            return line_difference(alloc, what, got, want);
        }
    }
    Ok(String::new(alloc))
}

/// Returns a message with the position of the row, counted from 0, its first words and the difference; empty if there
/// is no difference. `None` means that the row can't be parsed or memory ran out.
pub fn row_difference(
    alloc: Global,
    position: usize,
    row: &str,
    difference: Option<String>,
) -> Result<String, AllocError> {
    let number = position.saturating_add(1);
    let words = row.get(..60).unwrap_or(row);
    match difference {
        Some(told) => {
            if told.is_empty() {
                return Ok(told);
            }
            format!(in alloc; "row {number}, {words}:\n    {told}")
        }
        None => format!(in alloc;
            "row {number}, {words}:\n    it can't be read, or there is no memory"
        ),
    }
}

/// Returns the first row whose run gives another result than expected, and the difference.
pub fn first_difference<F: Fn(Global, &str) -> Option<String>>(
    alloc: Global,
    rows: &[&str],
    run: F,
) -> Result<String, AllocError>
    requires { F.IsAlwaysCallable run }
{
    for (position, row) in rows.iter().enumerate() {
        let told = row_difference(alloc, position, row, run(alloc, row))?;
        if !told.is_empty() {
            return Ok(told);
        }
    }
    Ok(String::new(alloc))
}

//! Test programs that run the rows of standard input.
//!
//! A row is a name and fields, separated by `|`. A line that begins with two blanks belongs to the row before it: it
//! begins the next field, or is another line of the field. A line that begins with `#` is a comment.

use program_io::{DEVICE_FAULT, DONE, REFUSED, read_all};
use std::alloc::{AllocError, Global};
use std::process::ExitCode;
use std::{io, str};

/// A row, and the number of its first line.
#[derive(Drop)]
struct Row {
    line: u64,
    text: Vec<u8>,
}

/// Appends a line to the row that it belongs to.
fn go_on(text: &mut Vec<u8>, line: &[u8]) -> Result<(), AllocError> {
    text.extend_from_slice(line)?;
    if !line.starts_with(b"|") {
        text.push(b'\n')?;
    }
    Ok(())
}

fn add_row(rows: &mut Vec<Row>, line: u64, text: Vec<u8>) -> Result<(), AllocError> {
    if !text.is_empty() {
        rows.push(Row { line, text })?;
    }
    Ok(())
}

fn rows_of(alloc: Global, text: &[u8]) -> Result<Vec<Row>, AllocError> {
    let mut rows = Vec::new(alloc);
    let mut row = Vec::new(alloc);
    let (mut line, mut first): (u64, u64) = (0, 0);
    for said in text.split(|byte| *byte == b'\n') {
        line = line.saturating_add(1);
        if let [b' ', b' ', more @ ..] = said {
            go_on(&mut row, more)?;
        } else if !said.is_empty() && !said.starts_with(b"#") {
            add_row(&mut rows, first, row)?;
            row = Vec::from_slice(alloc, said)?;
            first = line;
        }
    }
    add_row(&mut rows, first, row)?;
    Ok(rows)
}

/// Returns the fields of a row, the first of which is its name.
fn fields_of(alloc: Global, row: &Row) -> Result<Vec<&[u8]>, AllocError> {
    let mut fields = Vec::new(alloc);
    for field in row.text.split(|byte| *byte == b'|') {
        fields.push(field)?;
    }
    Ok(fields)
}

/// Reports whether a row has the expected result, and prints the difference if not.
fn has_result(
    rt: &HostRuntime,
    row: &Row,
    name: Option<&&[u8]>,
    told: Option<String>,
) -> io::Result<bool> {
    let told = match &told {
        Some(told) => told.as_str(),
        None => "it can't be read, or there is no memory",
    };
    if told.is_empty() {
        return Ok(true);
    }
    let line = row.line;
    let name = str::from_utf8(name.copied().unwrap_or(&[])).unwrap_or("?");
    println!(rt; "line {line}: {name}\n    {told}")?;
    Ok(false)
}

fn are_played<F: Fn(Global, &[&[u8]]) -> Option<String>>(
    rt: &HostRuntime,
    play: F,
) -> io::Result<u8>
    requires { F.IsAlwaysCallable play }
{
    let text = read_all(rt.alloc(), &mut rt.stdin())?;
    let rows = rows_of(rt.alloc(), &text)?;
    for row in &rows {
        let fields = fields_of(rt.alloc(), row)?;
        let told = play(rt.alloc(), fields.as_slice());
        if !has_result(rt, row, fields.first(), told)? {
            return Ok(REFUSED);
        }
    }
    if rows.is_empty() {
        return Ok(REFUSED);
    }
    println!(rt; "each row has its result")?;
    Ok(DONE)
}

/// Runs each row of standard input. `play` gets the fields of a row, the first of which is its name, and returns the
/// first difference from the expected result, or an empty text; `None` means that the row can't be read or memory ran
/// out. Reports the first row with another result, with its line and its name. Returns the exit status.
pub fn play_rows<F: Fn(Global, &[&[u8]]) -> Option<String>>(rt: &HostRuntime, play: F) -> ExitCode
    requires { F.IsAlwaysCallable play }
{
    match are_played(rt, play) {
        Ok(status) => ExitCode::from(status),
        Err(_) => ExitCode::from(DEVICE_FAULT),
    }
}

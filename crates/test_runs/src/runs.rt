//! Runs init on a row. A difference from the row is a text, which is empty if the run matches the row.

use init_words::Memory;
use simulator::{SimFault, Untold, simulate};
use std::alloc::{AllocError, Global};
use test_support::difference;
use text_lines::newlines;
use trace_text::first_happening;

/// The line of a hand-over in a script and in a trace.
const HANDED: &[u8] = b"handed whole\n";

/// A run with an expected result worked out by hand.
#[derive(Drop)]
pub(crate) struct Row<'t> {
    /// The inittab(5).
    pub(crate) inittab: &'t [u8],
    /// The script of what the system does.
    pub(crate) script: &'t [u8],
    /// The expected trace.
    pub(crate) trace: &'t [u8],
    /// The reason why the run ends before the script; empty if it does not.
    pub(crate) fault: &'t [u8],
}

/// Returns the reason why a run ended before its script; empty if it did not.
fn end_text(alloc: Global, ended: Result<(), SimFault>) -> Result<String, AllocError> {
    match ended {
        Ok(()) => Ok(String::new(alloc)),
        Err(why) => format!(in alloc; "{why}"),
    }
}

/// Returns a trace without its hand-overs.
fn without_handed(alloc: Global, trace: &[u8]) -> Result<Vec<u8>, AllocError> {
    let mut text = Vec::new(alloc);
    for line in trace.split_inclusive(|byte| *byte == b'\n') {
        if line != HANDED {
            text.extend_from_slice(line)?;
        }
    }
    Ok(text)
}

/// Runs a script. If `is_handed` is set, the trace without its hand-overs is expected.
fn run_over(
    alloc: Global,
    row: &Row<'_>,
    script: &[u8],
    is_handed: bool,
) -> Result<String, AllocError> {
    let mut out = Vec::new(alloc);
    let ended = simulate::<Global, Vec<u8>, Untold>(alloc, row.inittab, None, script, &mut out);
    let end = end_text(alloc, ended)?;
    if is_handed {
        let text = without_handed(alloc, &out)?;
        if text.len().saturating_add(HANDED.len()) != out.len() {
            return String::from_str(alloc, "its trace has no such line");
        }
        out = text;
    }
    let texts = [
        ("its trace", out.as_slice(), row.trace),
        ("its end", end.as_bytes(), row.fault),
    ];
    difference(alloc, &texts)
}

/// Inserts a hand-over between these parts of the row's script. The rest of its trace must be the same.
fn difference_between(
    alloc: Global,
    row: &Row<'_>,
    front: &[u8],
    rest: &[u8],
) -> Result<String, AllocError> {
    let mut script = Vec::from_slice(alloc, front)?;
    script.extend_from_slice(HANDED)?;
    script.extend_from_slice(rest)?;
    let told = run_over(alloc, row, &script, true)?;
    if told.is_empty() {
        return Ok(told);
    }
    let lines = newlines(front);
    format!(in alloc; "with a hand-over after line {lines} of its script, {told}")
}

/// Inserts a hand-over after each happening of the row's script, and before all of them. The rest of its trace must be
/// the same.
fn handed_difference(alloc: Global, row: &Row<'_>) -> Result<String, Memory> {
    let script = row.script;
    let mut rest = script;
    for _ in 0..=script.len() {
        let (front, more) = script.split_at(script.len().saturating_sub(rest.len()));
        let told = difference_between(alloc, row, front, more)?;
        if !told.is_empty() {
            return Ok(told);
        }
        match first_happening(alloc, rest)? {
            Some((_, more)) => rest = more,
            None => return Ok(told),
        }
    }
    Ok(String::new(alloc))
}

/// Runs the row, and then the row with each hand-over. Inserts no hand-over into a script that already contains one or
/// that ends early.
pub(crate) fn difference_of(alloc: Global, row: &Row<'_>) -> Result<String, Memory> {
    let told = run_over(alloc, row, row.script, false)?;
    if !told.is_empty() || !row.fault.is_empty() || has_handed(row.script) {
        return Ok(told);
    }
    handed_difference(alloc, row)
}

/// Reports whether a line of the script is a hand-over.
fn has_handed(script: &[u8]) -> bool {
    script
        .split(|byte| *byte == b'\n')
        .any(|line| line.starts_with(b"handed"))
}

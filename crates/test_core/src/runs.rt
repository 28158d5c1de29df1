//! Runs as text: calls, init's steps after them, and the results of reader methods. In a row each is a line, and an
//! indented line belongs to the line before it. In a test they are separated by ` / `.
//!
//! The calls are lines of a trace. The act of the system for an order, `birth` to `miss`, is passed to init immediately
//! as the answer; `use` has the lines of the table to adopt. A call that is rejected has the reason after ` ! `.

use init_words::Refusal;
use inittab_text::Table;
use std::alloc::{AllocError, Allocator, Global};

/// The subject of a run: a core, or only records, in the memory of an allocator.
pub(crate) trait Subject<A: Allocator + Copy> {
    /// Reports whether a line has the expected result: the value that it reads is right, it is the next step, or its
    /// call returns `want`.
    fn goes(&mut self, global: Global, alloc: A, line: &str, want: Result<(), Refusal>) -> bool;

    /// Reports whether the run contains all steps, so no other step is due.
    fn rests(&mut self) -> bool;
}

pub(crate) fn table_of<A: Allocator + Copy>(alloc: A, inittab: &str) -> Option<Table<A>> {
    let (table, _) = inittab_text::read(alloc, inittab.as_bytes()).ok()?;
    Some(table)
}

fn want_of(refusal: &str) -> Result<(), Refusal> {
    match refusal {
        "not asked" => Err(Refusal::NotAsked),
        "wrong answer" => Err(Refusal::WrongAnswer),
        "not quiet" => Err(Refusal::NotQuiet),
        "memory" => Err(Refusal::Memory),
        _ => Ok(()),
    }
}

/// Reports whether a step of a run has the expected result.
fn has_result<A: Allocator + Copy, S: Subject<A>>(
    global: Global,
    alloc: A,
    subject: &mut S,
    step: &str,
) -> bool {
    let (line, refusal) = step.split_once(" ! ").unwrap_or((step, ""));
    subject.goes(global, alloc, line, want_of(refusal))
}

/// Appends an indented line to a step: a line of its table, one of its records, or the reason why it is rejected.
fn add_line(step: &mut String, line: &str) -> Result<(), AllocError> {
    let is_next = step.contains(' ') && !line.starts_with("! ");
    step.push(if is_next { '\n' } else { ' ' })?;
    step.push_str(line)
}

/// Returns the steps of a row's run.
pub(crate) fn steps_of(global: Global, run: &str) -> Result<Vec<String>, AllocError> {
    let mut steps: Vec<String> = Vec::new(global);
    for line in run.lines() {
        match (line.strip_prefix("  "), steps.last_mut()) {
            (Some(more), Some(step)) => add_line(step, more)?,
            _ => steps.push(String::from_str(global, line)?)?,
        }
    }
    Ok(steps)
}

/// Returns the message about a step of this number that has another result.
fn stray_text(global: Global, number: usize, step: &str) -> Option<String> {
    format!(in global; "step {number} has another result: {step}").ok()
}

/// Returns a message about the first step that does not have the expected result, or about another step after the last
/// one; empty if there is none.
pub(crate) fn steps_difference<A: Allocator + Copy, S: Subject<A>>(
    global: Global,
    alloc: A,
    subject: &mut S,
    steps: &[String],
) -> Option<String> {
    let mut number = 0usize;
    for step in steps {
        number = number.saturating_add(1);
        if !has_result(global, alloc, subject, step) {
            return stray_text(global, number, step);
        }
    }
    if subject.rests() {
        Some(String::new(global))
    } else {
        stray_text(global, number, "another step follows it")
    }
}

/// Returns the steps of a test's run.
#[cfg(test)]
pub(crate) fn parts_of(global: Global, run: &str) -> Result<Vec<String>, AllocError> {
    let mut parts = Vec::new(global);
    for part in run.split(" / ") {
        parts.push(String::from_str(global, part)?)?;
    }
    Ok(parts)
}

/// Reports whether all steps of a test's run have the expected results, and no other step follows.
#[cfg(test)]
pub(crate) fn goes_on<A: Allocator + Copy, S: Subject<A>>(
    global: Global,
    alloc: A,
    subject: &mut S,
    run: &str,
) -> bool {
    match parts_of(global, run) {
        Ok(steps) => match steps_difference(global, alloc, subject, &steps) {
            Some(told) => told.is_empty(),
            None => false,
        },
        Err(AllocError) => false,
    }
}

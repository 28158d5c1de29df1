//! The verdicts on a text: read as a whole, in pieces, and in its brief form. A difference from a row is a text, which
//! is empty if the result matches the row.

use init_words::Memory;
use std::alloc::{AllocError, Allocator, Global};
use test_support::{boxed, difference};
use trace_check::Verdict;
use trace_events::HappeningIn;
use trace_log::{EndedLog, ListLog, Log};
use trace_log_wrappers::BriefLog;
use trace_text::ReadFault;
use trace_verdict::{Finding, TextJudge};

/// A change to a line of a trace.
#[derive(Clone, Copy, PartialEq, Eq)]
enum Change {
    None,
    Dropped,
    Doubled,
    /// The line is exchanged with the next one.
    Exchanged,
}

/// The changes in the order of the columns of a row.
const CHANGES: [Change; 3] = [Change::Dropped, Change::Doubled, Change::Exchanged];

impl Change {
    fn words(self) -> &'static str {
        match self {
            Change::None => "unchanged",
            Change::Dropped => "dropped",
            Change::Doubled => "doubled",
            Change::Exchanged => "exchanged with the next",
        }
    }
}

fn add_changed(text: &mut String, line: &str, change: Change) -> Result<(), AllocError> {
    if change != Change::Dropped {
        text.push_str(line)?;
    }
    if change == Change::Doubled {
        text.push_str(line)?;
    }
    Ok(())
}

/// Returns a text with its line at a position changed.
fn changed(
    global: Global,
    text: &str,
    position: usize,
    change: Change,
) -> Result<String, AllocError> {
    let mut made = String::new(global);
    let mut held = None;
    for (at, line) in text.split_inclusive('\n').enumerate() {
        if at == position && change == Change::Exchanged {
            held = Some(line);
            continue;
        }
        let here = if at == position { change } else { Change::None };
        add_changed(&mut made, line, here)?;
        if let Some(first) = held.take() {
            made.push_str(first)?;
        }
    }
    Ok(made)
}

/// Passes the happenings of a trace to the log. Reports whether the log accepted all of them.
fn takes_all<L: Log>(log: &mut L, trace: &[HappeningIn<Global>]) -> bool {
    for happening in trace {
        if log.failed() || log.take(happening).is_err() {
            return false;
        }
    }
    true
}

/// Returns the contents of a log after the brief form of a trace, and whether the log accepted all of it.
pub(crate) fn finished<L: EndedLog>(log: L, trace: &[HappeningIn<Global>]) -> (L::Left, bool) {
    let mut brief = BriefLog::new(log);
    let all = takes_all(&mut brief, trace);
    let (left, whole) = brief.end();
    (left, all && whole)
}

/// Returns the number of happenings of the brief form of a trace that are written before its end.
fn written_before(global: Global, trace: &[HappeningIn<Global>]) -> usize {
    let mut brief = BriefLog::new(ListLog::new(global));
    takes_all(&mut brief, trace);
    brief.into_log().list().len()
}

/// Returns `.` for a lawful trace, otherwise the position of the first breach and its law.
fn verdict_on(global: Global, trace: &[HappeningIn<Global>]) -> Result<String, Memory> {
    match trace_check::check(global, trace)? {
        Verdict::Lawful => Ok(String::from_str(global, ".")?),
        Verdict::Breach(position, law) => {
            let number = law.number();
            Ok(format!(in global; "{position}:{number}")?)
        }
    }
}

/// Reports whether the brief form of a trace breaks first the same law as the trace, whose verdict is given, or both
/// break none.
fn is_alike(global: Global, trace: &[HappeningIn<Global>], verdict: &str) -> Result<bool, Memory> {
    let (brief, all) = finished(ListLog::new(global), trace);
    let given = verdict_on(global, brief.as_slice())?;
    Ok(all && brief.len() <= trace.len() && given.split(':').last() == verdict.split(':').last())
}

/// Reports whether the trace prints as the text.
pub(crate) fn is_printed(
    global: Global,
    trace: &[HappeningIn<Global>],
    text: &str,
) -> Result<bool, Memory> {
    Ok(trace_text::print(global, trace)?.as_slice() == text.as_bytes())
}

/// Checks that a text has this verdict, and that its trace prints as the text and has a brief form with the same
/// verdict; returns the first difference, or an empty text. A verdict `?` with a number names a line at which the text
/// is not a trace.
fn judged_difference(global: Global, text: &str, want: &str) -> Option<String> {
    match trace_text::read(global, text.as_bytes()) {
        Ok(trace) => {
            let verdict = verdict_on(global, &trace).ok()?;
            if verdict.as_str() != want {
                return Some(verdict);
            }
            if !is_printed(global, &trace, text).ok()? {
                return String::from_str(global, "printed otherwise").ok();
            }
            if !is_alike(global, &trace, want).ok()? {
                return String::from_str(global, "otherwise in its brief form").ok();
            }
        }
        Err(ReadFault::Line(number)) => {
            let told = format!(in global; "?{number}").ok()?;
            if told.as_str() != want {
                return Some(told);
            }
        }
        Err(ReadFault::Memory) => return None,
    }
    Some(String::new(global))
}

/// Returns a judge that uses the given allocator; the judge is in ordinary memory.
pub(crate) fn judge_over<A: Allocator + Copy>(
    global: Global,
    memory: A,
) -> Result<Box<TextJudge<A>>, AllocError> {
    boxed(global, TextJudge::new(memory))
}

/// Passes a text to a judge in pieces of a size.
pub(crate) fn hand_over<A: Allocator + Copy>(
    judge: &mut TextJudge<A>,
    text: &[u8],
    size: usize,
) -> Result<(), Memory> {
    for piece in text.chunks(size.max(1)) {
        judge.take(piece)?;
    }
    Ok(())
}

/// Returns the result of a judge: `.`; or the position of the first breach, its law, its line and its text; or `?` and
/// a line.
pub(crate) fn found<A: Allocator + Copy>(global: Global, judge: &TextJudge<A>) -> Option<String> {
    match judge.answer().0 {
        Finding::Lawful => String::from_str(global, ".").ok(),
        Finding::Breach(breach) => {
            let (position, law, line) = (breach.position(), breach.law().number(), breach.line());
            let text = std::str::from_utf8(breach.text()).ok()?;
            format!(in global; "{position}:{law} line {line}: {text}").ok()
        }
        Finding::Torn(number) => format!(in global; "?{number}").ok(),
    }
}

/// Returns the result for a text that comes in pieces of a size, and the line at which its last happening is
/// incomplete, or 0 if it is complete.
pub(crate) fn found_of(global: Global, text: &str, size: usize) -> Option<(String, u64)> {
    let mut judge = judge_over(global, global).ok()?;
    hand_over(&mut judge, text.as_bytes(), size).ok()?;
    Some((found(global, &judge)?, judge.answer().1.unwrap_or(0)))
}

/// Returns the difference between the verdict on a text, read as a whole and in pieces, and the expected one.
fn text_difference(global: Global, text: &str, want: &str) -> Option<String> {
    let told = judged_difference(global, text, want)?;
    if !told.is_empty() {
        return Some(told);
    }
    let (found, _) = found_of(global, text, 5)?;
    if found.split(' ').next() == Some(want) {
        return Some(told);
    }
    format!(in global; "in pieces {found}").ok()
}

/// Splits a line of a row into the line of the trace and its columns.
fn parts(line: &str) -> (&str, &str) {
    line.split_once("  ").unwrap_or((line, ""))
}

/// Returns the trace of a row, without its columns.
fn text_of(global: Global, trace: &str) -> Result<String, AllocError> {
    let mut text = String::new(global);
    for line in trace.lines() {
        text.push_str(parts(line).0)?;
        text.push('\n')?;
    }
    Ok(text)
}

/// Returns a verdict in the form of a column.
fn short_of(global: Global, verdict: &str) -> Option<String> {
    if verdict == "lawful" {
        return String::from_str(global, ".").ok();
    }
    let (position, law) = verdict
        .strip_prefix("happening ")?
        .split_once(" breaks law ")?;
    format!(in global; "{position}:{law}").ok()
}

/// Returns the difference between the verdict on a trace with this line changed and the one in its column, if it has
/// one.
fn line_difference(
    global: Global,
    text: &str,
    position: usize,
    line: &str,
    column: usize,
) -> Option<String> {
    let (line, columns) = parts(line);
    let (Some(want), Some(change)) = (
        columns.split_ascii_whitespace().nth(column),
        CHANGES.get(column),
    ) else {
        return Some(String::new(global));
    };
    let text = changed(global, text, position, *change).ok()?;
    let told = text_difference(global, text.as_str(), want)?;
    if told.is_empty() {
        return Some(told);
    }
    let words = change.words();
    format!(in global; "{line}, {words}: {told}, not {want}").ok()
}

/// Returns the difference from a row: in the verdict on its trace, or on the trace with one line changed.
pub(crate) fn verdict_difference(global: Global, verdict: &str, trace: &str) -> Option<String> {
    let text = text_of(global, trace).ok()?;
    let want = short_of(global, verdict.trim_ascii_end())?;
    let told = text_difference(global, text.as_str(), want.as_str())?;
    if !told.is_empty() {
        return Some(told);
    }
    for (position, line) in trace.lines().enumerate() {
        for column in 0..CHANGES.len() {
            let told = line_difference(global, text.as_str(), position, line, column)?;
            if !told.is_empty() {
                return Some(told);
            }
        }
    }
    Some(told)
}

/// Returns a trace, and its brief form, which is everything outside the brackets.
fn both_of(global: Global, trace: &str) -> Option<(Vec<HappeningIn<Global>>, String)> {
    let (mut whole, mut brief) = (String::new(global), String::new(global));
    let mut is_left = false;
    for part in trace.lines() {
        let line = part.strip_prefix('[').unwrap_or(part);
        is_left = is_left || line.len() < part.len();
        let line = format!(in global; "{}\n", line.strip_suffix(']').unwrap_or(line)).ok()?;
        whole.push_str(&line).ok()?;
        if !is_left {
            brief.push_str(&line).ok()?;
        }
        is_left = is_left && !part.ends_with(']');
    }
    Some((trace_text::read(global, whole.as_bytes()).ok()?, brief))
}

/// Returns the difference from a row: in the brief form of its trace, or in the verdicts on both, one per line, and the
/// number of happenings held back at the end.
pub(crate) fn brief_difference(
    global: Global,
    verdicts: &str,
    held: &str,
    trace: &str,
) -> Option<String> {
    let (whole, short) = verdicts.trim_ascii_end().split_once('\n')?;
    let (whole, short) = (short_of(global, whole)?, short_of(global, short)?);
    let held = held.trim_ascii_end();
    let want = format!(in global; "{whole} {short} {held}").ok()?;
    let (trace, brief) = both_of(global, trace)?;
    let (list, all) = finished(ListLog::new(global), &trace);
    let text = trace_text::print(global, list.as_slice()).ok()?;
    let whole = verdict_on(global, &trace).ok()?;
    let short = verdict_on(global, list.as_slice()).ok()?;
    let before = list.len().checked_sub(written_before(global, &trace))?;
    let got = format!(in global; "{whole} {short} {before}").ok()?;
    if !all {
        return String::from_str(global, "the log took less than all").ok();
    }
    let told = String::new(global);
    let told = or_difference(
        global,
        told,
        "its brief form",
        text.as_slice(),
        brief.as_bytes(),
    )
    .ok()?;
    or_difference(
        global,
        told,
        "its verdicts",
        got.as_bytes(),
        want.as_bytes(),
    )
    .ok()
}

/// Returns `told`, or otherwise the difference between a text and the expected one; empty if there is none.
pub(crate) fn or_difference<'x>(
    alloc: Global,
    told: String,
    what: &'x str,
    got: &'x [u8],
    want: &'x [u8],
) -> Result<String, AllocError> {
    if !told.is_empty() {
        return Ok(told);
    }
    difference(alloc, &[(what, got, want)])
}

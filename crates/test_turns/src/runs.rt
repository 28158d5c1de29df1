//! Runs of init on a scripted host. A difference from a row is a text, which is empty if the run matches the row.

use host_calls::Host;
use host_scripted::MemoryHost;
use init_words::Memory;
use inittab_text::Table;
use level_core::Core;
use std::alloc::{AllocError, Allocator, Global};
use std::str;
use supervisor::{Edge, IgnoringObserver, Served};
use test_support::{boxed, calls_of, difference, give};
use trace_check::Verdict;
use trace_events::{Happening, HappeningIn};
use trace_log::{ListLog, Log};

/// A run with an expected result worked out by hand.
#[derive(Drop)]
pub(crate) struct Row<'t> {
    /// The maximum number of turns.
    turns: u64,
    /// Whether the run ends when init is drained.
    drain: bool,
    strict: bool,
    inittab: &'t [u8],
    /// The answers of the host, in the form that `give_lines` reads.
    answers: &'t str,
    trace: &'t [u8],
    /// The expected line of `end_text`.
    end: &'t [u8],
    /// The calls that init makes; empty if they are not checked, and `none` if it makes none.
    calls: &'t [u8],
}

/// Returns the row with these fields.
pub(crate) fn row_of<'t>(fields: &[&'t [u8]]) -> Option<Row<'t>> {
    let [_, options, inittab, answers, trace, end, calls] = *fields else {
        return None;
    };
    let mut row = Row {
        turns: 0,
        drain: false,
        strict: false,
        inittab,
        answers: str::from_utf8(answers).ok()?,
        trace,
        end,
        calls,
    };
    for word in str::from_utf8(options).ok()?.split_ascii_whitespace() {
        match word {
            "--turns" => {}
            "--drain" => row.drain = true,
            "--strict" => row.strict = true,
            number => row.turns = number.parse::<u64>().ok()?,
        }
    }
    Some(row)
}

/// Appends an indented line to an answer: a line of a file or of a state text, or a `+` before the next file.
fn add_line(answer: &mut String, line: &str) -> Result<(), AllocError> {
    let is_first = line == "+" || answer.ends_with("+") || !answer.contains(' ');
    answer.push_str(if is_first { " " } else { "|" })?;
    answer.push_str(line)
}

/// Gives a host the answers of a row, one per line; an indented line belongs to the answer before it.
fn give_lines(global: Global, host: &mut MemoryHost, answers: &str) -> Option<()> {
    let mut answer = String::new(global);
    for line in answers.lines() {
        if let Some(more) = line.strip_prefix("  ") {
            add_line(&mut answer, more).ok()?;
            continue;
        }
        if !answer.is_empty() {
            give(global, global, host, &answer)?;
        }
        answer = String::from_str(global, line).ok()?;
    }
    if !answer.is_empty() {
        give(global, global, host, &answer)?;
    }
    Some(())
}

/// An init before its first turn: its core, its host and its log.
#[derive(Drop)]
pub(crate) struct Bench<A: Allocator + Copy, B: Allocator, L: Log> {
    pub(crate) core: Core<B>,
    pub(crate) edge: Edge<MemoryHost<A>, L>,
    pub(crate) strict: bool,
}

fn bench_over<A: Allocator + Copy, B: Allocator + Copy, L: Log + Drop>(
    global: Global,
    host: Box<MemoryHost<A>>,
    alloc: B,
    table: Table<B>,
    log: L,
) -> Result<Box<Bench<A, B, L>>, Memory> {
    let core = Core::new(alloc, table, None)?;
    let edge = Edge::new(Box::into_inner(host), log);
    let strict = false;
    Ok(boxed(global, Bench { core, edge, strict })?)
}

/// Creates a core for an inittab, with a host and a log. The core and the host use separate allocators.
pub(crate) fn bench_of<A: Allocator + Copy, B: Allocator + Copy, L: Log + Drop>(
    global: Global,
    host: Box<MemoryHost<A>>,
    alloc: B,
    inittab: &[u8],
    log: L,
) -> Option<Box<Bench<A, B, L>>> {
    let (table, _) = inittab_text::read(alloc, inittab).ok()?;
    bench_over(global, host, alloc, table, log).ok()
}

/// Makes the given number of turns, or fewer with `drain` if init is drained.
pub(crate) fn serve_on<A: Allocator + Copy, B: Allocator + Copy, L: Log>(
    alloc: B,
    bench: &mut Bench<A, B, L>,
    turns: u64,
    drain: bool,
) -> Served {
    let mut watch = IgnoringObserver {};
    let served = supervisor::serve(
        alloc,
        &mut bench.core,
        &mut bench.edge,
        turns,
        drain,
        bench.strict,
        &mut watch,
    );
    let IgnoringObserver {} = watch;
    served
}

/// Passes the table in force to the log.
fn log_table(global: Global, bench: &mut Bench<Global, Global, ListLog>) -> bool {
    let Ok(table) = bench.core.table().copy(global) else {
        return false;
    };
    bench.edge.write(&Happening::NewTable(table));
    !bench.edge.failed()
}

/// Returns the law that the log breaks, if any.
fn breach_in(global: Global, list: &[HappeningIn<Global>]) -> Option<String> {
    match trace_check::check(global, list).ok()? {
        Verdict::Lawful => Some(String::new(global)),
        Verdict::Breach(at, law) => {
            format!(in global; "its trace is unlawful: happening {at}: {law}").ok()
        }
    }
}

fn end_text(global: Global, ended: Served, faults: u64) -> Result<String, AllocError> {
    let Served {
        turns,
        drained,
        logged,
    } = ended;
    let drained = if drained { "yes" } else { "no" };
    let whole = if logged { "" } else { ", the log failed" };
    format!(in global; "turns {turns}, drained: {drained}, faults: {faults}{whole}\n")
}

/// Returns the calls of a run for its row.
fn calls_text(global: Global, bench: &Bench<Global, Global, ListLog>, row: &Row) -> Option<String> {
    if row.calls.is_empty() {
        return Some(String::new(global));
    }
    let calls = calls_of(global, bench.edge.host())?;
    if calls.is_empty() {
        return String::from_str(global, "none\n").ok();
    }
    Some(calls)
}

/// Makes the run, and returns its difference from the row. The log's first happening is the table of the start.
fn run_difference(
    global: Global,
    bench: &mut Bench<Global, Global, ListLog>,
    row: &Row,
) -> Option<String> {
    let ended = serve_on(global, bench, row.turns, row.drain);
    let end = end_text(global, ended, bench.edge.host().faults()).ok()?;
    let [_, made @ ..] = bench.edge.log().list() else {
        return None;
    };
    let trace = trace_text::print(global, made).ok()?;
    let calls = calls_text(global, bench, row)?;
    let texts = [
        ("its trace", trace.as_slice(), row.trace),
        ("its end", end.as_bytes(), row.end),
        ("its calls", calls.as_bytes(), row.calls),
    ];
    difference(global, &texts).ok()
}

/// Returns the difference between the run of a row and the row.
pub(crate) fn difference_of(global: Global, row: &Row) -> Option<String> {
    let mut host = boxed(global, MemoryHost::new(global)).ok()?;
    give_lines(global, &mut host, row.answers)?;
    let mut bench = bench_of(global, host, global, row.inittab, ListLog::new(global))?;
    bench.strict = row.strict;
    if !log_table(global, &mut bench) {
        return None;
    }
    let told = run_difference(global, &mut bench, row)?;
    if !told.is_empty() {
        return Some(told);
    }
    breach_in(global, bench.edge.log().list())
}

//! Runs of scripts on a scripted host, and their output.

use crate::rows::{given_host, writer_of};
use crate::script_order::{change_of, rc_over};
use program_io::Reports;
use rc_driver::{RcStep, RunEnd, ScriptOptions, print_links, run_links};
use std::alloc::Global;
use test_support::{calls_of, difference, line_words};

/// Options that run scripts with `sh`, without lines for starts.
pub(crate) const PLAIN: ScriptOptions = ScriptOptions {
    direct: false,
    verbose: false,
    seconds: None,
    levels: None,
};

/// How the scripts of a row are run.
#[derive(Drop)]
struct Way {
    options: ScriptOptions,
    /// Whether their commands are only printed.
    is_printed: bool,
    /// Whether the first script was requested before.
    is_asked: bool,
}

/// Returns the way with these words.
fn way_of(words: &str) -> Option<Way> {
    let mut way = Way {
        options: PLAIN,
        is_printed: false,
        is_asked: false,
    };
    for word in words.split_ascii_whitespace() {
        match word {
            "run" => {}
            "print" => way.is_printed = true,
            "asked" => way.is_asked = true,
            "direct" => way.options.direct = true,
            "verbose" => way.options.verbose = true,
            "NS" => way.options.levels = change_of(word),
            seconds => way.options.seconds = Some(seconds.parse::<u32>().ok()?),
        }
    }
    Some(way)
}

/// Returns the word for the end of the run, if its next step fits that end; or the script at which the limit was
/// reached.
fn end_of<'e>(end: RunEnd<'e>, next: RcStep) -> &'e str {
    let is_over = next == RcStep::Done;
    match end {
        RunEnd::Done if is_over => "done",
        RunEnd::Failed if is_over => "failed",
        RunEnd::Limit(link) if !is_over => link,
        RunEnd::Waiting if !is_over => "waiting",
        RunEnd::Write if !is_over => "write",
        RunEnd::Memory => "memory",
        _ => "something else is requested",
    }
}

/// Returns the difference between the run of a row and the row; empty if there is none.
pub(crate) fn difference_of(alloc: Global, row: &[&str]) -> Option<String> {
    let [
        words,
        scripts,
        given,
        limit,
        lines,
        reports,
        end,
        out,
        err,
        calls,
    ] = *row
    else {
        return None;
    };
    let way = way_of(words)?;
    let limit = limit.trim_ascii_end().parse::<u32>().ok()?;
    let names = line_words(alloc, scripts.trim_ascii_end()).ok()?;
    let mut host = given_host(alloc, given)?;
    let mut rc = rc_over(alloc, alloc, "", &[], &names).ok()?;
    if way.is_asked {
        let _ = rc.next();
    }
    let mut lines = writer_of(alloc, lines)?;
    let mut reports = Reports::to(writer_of(alloc, reports)?);
    let ended = if way.is_printed {
        print_links(alloc, &mut rc, way.options, "x", &mut lines)
    } else {
        run_links(
            alloc,
            &mut rc,
            &mut *host,
            way.options,
            "x",
            limit,
            &mut lines,
            &mut reports,
        )
    };
    let ended = format!(in alloc; "{}\n", end_of(ended, rc.next())).ok()?;
    let made = calls_of(alloc, &host)?;
    let reports = reports.writer();
    let texts = [
        (
            "standard output",
            lines.taken.as_slice(),
            lines.front_of(out),
        ),
        (
            "standard error",
            reports.taken.as_slice(),
            reports.front_of(err),
        ),
        ("its end", ended.as_bytes(), end.as_bytes()),
        ("its calls", made.as_bytes(), calls.as_bytes()),
    ];
    difference(alloc, &texts).ok()
}

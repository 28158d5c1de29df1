//! Complete command lines of initd, with texts in memory, a scripted host and writers that fail. Other command lines of
//! initd are tested in tools/rows/initd-lines and tools/pages.d/initd-lines.

ghost use Rattle.std.specs.Prelude.{⊤, None, option_and_then};

use crate::rows::{given_host, or_difference, writer_of};
use host_calls::Host;
use host_scripted::MemoryHost;
use init_words::Memory;
use initd_command::{Hosts, run_words};
use initd_options::RunWords;
use program_io::{ChannelLock, KeptTexts, Reports};
use std::alloc::{AllocError, Global};
use std::fs;
use test_support::{Slow, boxed, calls_of, line_words};
use trace_files::OsTraces;

/// A source of one host, which is available again after the turns.
#[derive(Drop)]
struct OneHost {
    host: Option<MemoryHost>,
    /// Whether the host could print everything.
    printed: bool,
}

impl Hosts<MemoryHost> for OneHost {
    ghost told = { λ one. option_and_then ⟦<MemoryHost as Host>⟧.told one.host };

    ghost opened = { λ _. None };

    ghost conforms = { λ _ _. ⊤ };

    fn open(
        &mut self,
        _alloc: Global,
        _said: &RunWords,
        _lock: ChannelLock,
    ) -> Result<MemoryHost, Memory> {
        match self.host.take() {
            Some(host) => Ok(host),
            None => Err(Memory),
        }
    }

    fn close(&mut self, host: MemoryHost) -> bool {
        self.host = Some(host);
        self.printed
    }
}

/// Returns a source of the host with these answers. After `unprinted` it can't print everything.
fn source_of(alloc: Global, given: &str) -> Option<Box<OneHost>> {
    let answers = given.strip_prefix("unprinted\n").unwrap_or(given);
    let printed = answers.len() == given.len();
    let host = Some(Box::into_inner(given_host(alloc, answers)?));
    boxed(alloc, OneHost { host, printed }).ok()
}

/// Returns how a run ended: its status, and the numbers of calls to the host for readings of the clock, starts and
/// pauses.
fn end_of(alloc: Global, status: u8, one: &OneHost) -> Option<String> {
    let calls = calls_of(alloc, one.host.as_ref()?)?;
    let clocks = calls.matches("clock\n").count();
    let starts = calls.matches("start ").count();
    let pauses = calls.matches("pause\n").count();
    format!(in alloc; "status {status}, clock {clocks}, start {starts}, pause {pauses}\n").ok()
}

fn stored_of(alloc: Global, inittab: &str, script: &str) -> Result<KeptTexts, AllocError> {
    let mut stored = KeptTexts::new(alloc);
    stored.keep("tab", inittab.as_bytes())?;
    stored.keep("said", script.as_bytes())?;
    Ok(stored)
}

/// Returns the expected text, or the actual text if the text is not checked.
fn wanted<'t>(got: &'t [u8], want: &'t [u8]) -> &'t [u8] {
    if want == b"?\n".as_slice() { got } else { want }
}

/// Removes the files of a run, and returns the text of its trace; empty if it has none.
fn left_trace(rt: &HostRuntime) -> Vec<u8> {
    let trace = fs::read(rt, "host-trace").unwrap_or(Vec::new(rt.alloc()));
    let _ = fs::remove_file(rt, "host-trace");
    let _ = fs::remove_file(rt, "host-ctl");
    trace
}

/// Returns the difference between the run of a row with this writer and the row; empty if there is none.
fn run_difference(rt: &HostRuntime, row: &[&str], out: &mut Slow) -> Option<String> {
    let alloc = rt.alloc();
    let [
        line,
        inittab,
        script,
        given,
        _,
        end,
        printed,
        reported,
        traced,
    ] = *row
    else {
        return None;
    };
    let stored = stored_of(alloc, inittab, script).ok()?;
    let mut hosts = source_of(alloc, given)?;
    let words = line_words(alloc, line.trim_ascii_end()).ok()?;
    let mut err = Reports::to(Vec::<u8>::new(alloc));
    let mut traces = OsTraces::new(rt, alloc);
    let status = run_words(
        rt,
        &stored,
        &mut *hosts,
        &mut traces,
        alloc,
        words,
        out,
        &mut err,
    );
    let ended = end_of(alloc, status, &hosts)?;
    let trace = left_trace(rt);
    let (printed, out) = (out.front_of(printed), out.taken.as_slice());
    let err = err.writer().as_slice();
    let told = String::new(alloc);
    let told = or_difference(alloc, told, "standard output", out, wanted(out, printed))?;
    let reported = wanted(err, reported.as_bytes());
    let told = or_difference(alloc, told, "standard error", err, reported)?;
    let told = or_difference(alloc, told, "its end", ended.as_bytes(), end.as_bytes())?;
    or_difference(
        alloc,
        told,
        "its trace",
        trace.as_slice(),
        traced.as_bytes(),
    )
}

/// Returns the first difference between the runs of a row, one with each of its writers, and the row.
pub(crate) fn difference_of(rt: &HostRuntime, row: &[&str]) -> Option<String> {
    let [_, _, _, _, writers, ..] = *row else {
        return None;
    };
    for writer in writers.lines() {
        let told = run_difference(rt, row, &mut writer_of(rt.alloc(), writer)?)?;
        if !told.is_empty() {
            return format!(in rt.alloc(); "writer {writer}: {told}").ok();
        }
    }
    Some(String::new(rt.alloc()))
}

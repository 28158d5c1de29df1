//! Runs scripts in turn: starts each, looks at it until it has ended, and writes its line.

ghost use Rattle.std.specs.Prelude.{◌≡◌, ◌||◌, false, None, IfOk, IfErr, IfSome};
ghost use Rattle.std.specs.Io.KnownBytes.{Appends};
ghost use Rattle.host_calls.specs.Record.{NewCallsSatisfy};
ghost use Rattle.rc_driver.specs.Parts.{Advanced, EndsCommand, HasRun};
ghost use Rattle.rc_driver.specs.Report.{WritesEnds, command_text, done_end, line_of, lines_of, output};
ghost use Rattle.rc_driver.specs.Told.{ScriptsEndAt, RunsLinks};
ghost use Rattle.rc_driver.specs.Runs.{is_failure};

use crate::progress::run_script;
use crate::runs::{Arg, Rc, RcAnswer, RcStep, ScriptOptions};
use crate::writing::{command_of, tell_end, tell_start};
use host_calls::Host;
use init_words::Status;
use program_io::Reporter;
use std::alloc::Allocator;
use std::io::Write;

/// How a run of scripts on a host ended.
#[derive(Clone, Copy, PartialEq, Eq)]
pub enum RunEnd<'n> {
    /// All scripts are finished, and none failed.
    Done,
    /// All scripts are finished. At least one was not started, or did not exit with status 0.
    Failed,
    /// The limit of pauses is reached, and the script of this link, the last one begun, is not finished.
    Limit(&'n str),
    /// A script that was begun earlier has no answer yet, so no script was run.
    Waiting,
    /// A line could not be written.
    Write,
    /// Out of memory.
    Memory,
}

/// Reports whether the script failed: it was not started, or did not exit with status 0.
fn is_failure(answer: &RcAnswer) -> bool
    ensures { result ≡ is_failure answer.now }
{
    match answer {
        RcAnswer::Ended(Status::Exit(code)) => *code != 0,
        _ => true,
    }
}

/// Reports whether an earlier script failed, or the script with this answer did.
fn failed_by(failed: bool, answer: &RcAnswer) -> bool
    ensures { result ≡ (failed || is_failure answer.now) }
{
    failed || is_failure(answer)
}

/// Returns the end of a run in which all scripts are finished.
fn done_end(failed: bool) -> RunEnd<'static>
    ensures { result ≡ done_end failed }
{
    if failed { RunEnd::Failed } else { RunEnd::Done }
}

/// Runs the script that the command starts, and writes its line when it is finished.
#[tactic(auto, using(crate::proofs::ToldLemmas::ends_early, crate::proofs::ToldLemmas::ends_unwritten))]
fn run_command<'n, A: Allocator + Copy, H: Host, W: Write, E: Reporter>(
    alloc: A,
    host: &mut H,
    way: ScriptOptions,
    dir: &str,
    command: &[u8],
    link: &'n str,
    arg: Arg,
    pauses: &mut u32,
    out: &mut W,
    err: &mut E,
) -> Result<RcAnswer, RunEnd<'n>>
    ensures ok { IfOk result (λ answer. Appends (W.contents out.old) (W.contents out.new)
        (line_of (link.now, arg) answer)) }
    ensures ran { IfOk result
        (λ answer. NewCallsSatisfy (H.told host.old) (H.told host.new) (HasRun way
        dir.now link.now command.now answer pauses.old pauses.new (E.reports err.old)
        (E.reports err.new))) }
    ensures ends { IfErr result (λ ended. NewCallsSatisfy (H.told host.old) (H.told host.new)
        (EndsCommand way dir.now command.now pauses.old (link.now, arg)
        (output (W.contents out.old) (E.reports err.old)) ended
        (output (W.contents out.new) (E.reports err.new)))) }
    ensures silent { way.seconds ≡ None → err.new ≡ err.old }
{
    let Some(answer) = run_script(alloc, host, way, dir, link, command, pauses, err) else {
        return Err(RunEnd::Limit(link));
    };
    match tell_end(out, link, arg, &answer) {
        Ok(()) => Ok(answer),
        Err(ended) => Err(ended),
    }
}

/// Runs a script, and writes its lines.
fn run_link<'n, A: Allocator + Copy, H: Host, W: Write, E: Reporter>(
    alloc: A,
    host: &mut H,
    way: ScriptOptions,
    dir: &str,
    link: &'n str,
    arg: Arg,
    pauses: &mut u32,
    out: &mut W,
    err: &mut E,
) -> Result<RcAnswer, RunEnd<'n>>
    ensures ok { IfOk result (λ answer. Appends (W.contents out.old) (W.contents out.new)
        (lines_of way (link.now, arg) answer)) }
    ensures ran { IfOk result
        (λ answer. NewCallsSatisfy (H.told host.old) (H.told host.new) (HasRun way
        dir.now link.now (command_text way dir.now (link.now, arg)) answer pauses.old pauses.new
        (E.reports err.old) (E.reports err.new))) }
    ensures ends { IfErr result (λ ended. NewCallsSatisfy (H.told host.old) (H.told host.new)
        (ScriptsEndAt way dir.now pauses.old (link.now, arg)
        (output (W.contents out.old) (E.reports err.old)) ended
        (output (W.contents out.new) (E.reports err.new)))) }
    ensures silent { way.seconds ≡ None → err.new ≡ err.old }
{
    let Ok(command) = command_of(alloc, way, dir, link, arg) else {
        return Err(RunEnd::Memory);
    };
    match tell_start(out, way, link, arg) {
        Ok(()) => run_command(
            alloc,
            host,
            way,
            dir,
            command.as_bytes(),
            link,
            arg,
            pauses,
            out,
            err,
        ),
        Err(ended) => Err(ended),
    }
}

/// Runs the next script, and notes whether it failed. Returns how the run ended, if it did.
fn run_next<'n, A: Allocator + Copy, B: Allocator, H: Host, W: Write, E: Reporter>(
    alloc: A,
    rc: &mut Rc<'n, B>,
    host: &mut H,
    way: ScriptOptions,
    dir: &str,
    pauses: &mut u32,
    failed: &mut bool,
    out: &mut W,
    err: &mut E,
) -> Option<RunEnd<'n>>
    ensures last { IfSome result
        (λ ended. NewCallsSatisfy (H.told host.old) (H.told host.new) (RunsLinks way
        dir.now pauses.old failed.old rc.old (output (W.contents out.old) (E.reports err.old))
        ended rc.new (output (W.contents out.new) (E.reports err.new)))) }
    ensures one { result ≡ None
        → NewCallsSatisfy (H.told host.old) (H.told host.new) (Advanced way dir.now
        pauses.old pauses.new failed.old failed.new rc.old
        (output (W.contents out.old) (E.reports err.old)) rc.new
        (output (W.contents out.new) (E.reports err.new))) }
    ensures silent { way.seconds ≡ None → err.new ≡ err.old }
{
    match rc.next() {
        RcStep::Run(link, arg) => {
            match run_link(alloc, host, way, dir, link, arg, pauses, out, err) {
                Ok(answer) => {
                    *failed = failed_by(*failed, &answer);
                    let Ok(()) = rc.answer(answer) else {
                        unreachable!()
                    };
                    None
                }
                Err(ended) => Some(ended),
            }
        }
        RcStep::Waiting => Some(RunEnd::Waiting),
        RcStep::Done => Some(done_end(*failed)),
    }
}

/// Runs the remaining scripts on a host, one at a time, and writes a line for each at its end: its link, its argument,
/// and `exit N`, `killed` or `not started`. In verbose runs there is also a line at its start.
///
/// `dir` is the path of the new level's folder. The host starts each script under the id `rc`, and looks at it until it
/// has ended, with a pause between two looks; `limit` is the maximum number of pauses. If scripts have a time limit,
/// this sends SIGTERM to a script that has run for longer, by the host's clock, and SIGKILL if it keeps running for
/// longer than init's grace period. It reports each signal on `err`, in a line with the link. The run continues however
/// a script ends. If the run ends early, `rc` still waits for the answer of the last script begun. If it was already
/// waiting for an answer, no script runs.
pub fn run_links<'n, A: Allocator + Copy, B: Allocator, H: Host, W: Write, E: Reporter>(
    alloc: A,
    rc: &mut Rc<'n, B>,
    host: &mut H,
    way: ScriptOptions,
    dir: &str,
    limit: u32,
    out: &mut W,
    err: &mut E,
) -> RunEnd<'n>
    ensures written { WritesEnds way rc.old (W.contents out.old) result rc.new
        (W.contents out.new) }
    ensures calls { NewCallsSatisfy (H.told host.old) (H.told host.new)
        (RunsLinks way dir.now limit false
        rc.old (output (W.contents out.old) (E.reports err.old)) result rc.new
        (output (W.contents out.new) (E.reports err.new))) }
    ensures silent { way.seconds ≡ None → err.new ≡ err.old }
{
    let mut pauses = limit;
    let mut failed = false;
    loop {
        if let Some(ended) = run_next(
            alloc,
            rc,
            host,
            way,
            dir,
            &mut pauses,
            &mut failed,
            out,
            err,
        ) {
            return ended;
        }
    }
}

//! The progress of one script: ordered, started, looked at, ended.

ghost use Rattle.std.specs.Prelude.{◌≡◌, None, true, false, IfNone, IfSome};
ghost use Rattle.host_calls.specs.Record.{NewCallsSatisfy};
ghost use Rattle.program_io.specs.Reports.{ReportList};
ghost use Rattle.rc_driver.specs.Parts.{Begins, EndsEarly, ScriptProgresses, ScriptContinues, HasRun, is_born, is_found};
ghost use Rattle.rc_driver.specs.Progress.{alive, by_late, by_look, by_start, is_waiting, script_id};
ghost use Rattle.rc_driver.specs.Report.{Tells};
ghost use Rattle.rc_driver.specs.Times.{time_lines};

use crate::runs::{RcAnswer, ScriptOptions};
use crate::times::{Timer, due_at, timer_at};
use crate::writing::tell_signal;
use host_calls::{Host, Reply};
use init_words::{Answer, Id};
use program_io::Reporter;
use std::alloc::Allocator;

/// The progress of a script.
#[derive(Clone, Copy)]
pub(crate) enum Progress {
    /// The answer to the last order has not arrived yet.
    Asked,
    /// The script was started, and a look at it is due.
    Born,
    /// The script is alive, and a check of its running time is due.
    Found,
    /// The script is alive, and the next look comes after a pause.
    Living,
    /// The script is finished.
    Over(RcAnswer),
}

/// Returns the id under which scripts are started.
fn script_id() -> Id
    ensures { result ≡ script_id }
{
    match Id::read(b"rc") {
        Some(id) => id,
        None => unreachable!(),
    }
}

/// Returns the progress of a script that was found alive.
fn alive(limit: Option<u32>) -> Progress
    ensures { result ≡ alive limit }
{
    match limit {
        None => Progress::Living,
        Some(_) => Progress::Found,
    }
}

/// Returns the progress of a script after the answer to a look.
fn by_look(limit: Option<u32>, answer: Answer) -> Progress
    ensures { result ≡ by_look limit answer }
{
    match answer {
        Answer::Ended(status) => Progress::Over(RcAnswer::Ended(status)),
        _ => alive(limit),
    }
}

/// Returns the progress of a script after the answer to its start, or after a later one.
fn by_start(limit: Option<u32>, answer: Answer) -> Progress
    ensures { result ≡ by_start limit answer }
{
    match answer {
        Answer::Born(_) => Progress::Born,
        Answer::NotBorn => Progress::Over(RcAnswer::NotStarted),
        _ => by_look(limit, answer),
    }
}

/// Returns the progress of a script after a late answer, if there is one.
fn by_late(limit: Option<u32>, progress: Progress, late: Option<(Id, Answer)>) -> Progress
    ensures { result ≡ by_late limit progress late }
{
    match progress {
        Progress::Living => Progress::Born,
        Progress::Asked => match late {
            Some(late) if late.0 == script_id() => by_start(limit, late.1),
            _ => Progress::Asked,
        },
        _ => progress,
    }
}

fn started<A: Allocator + Copy, H: Host>(
    alloc: A,
    host: &mut H,
    limit: Option<u32>,
    command: &[u8],
) -> Progress
    ensures { NewCallsSatisfy (H.told host.old) (H.told host.new)
        (Begins limit command.now result) }
{
    match host.start(alloc, script_id(), command) {
        Reply::Later => Progress::Asked,
        Reply::Now(answer) => by_start(limit, answer),
    }
}

/// Looks at a script that was started, or at which another look is due.
fn looked<H: Host>(host: &mut H, limit: Option<u32>) -> Progress
    ensures calls { NewCallsSatisfy (H.told host.old) (H.told host.new)
        (ScriptContinues limit Progress.Born result 0) }
    ensures settled { is_born result ≡ false }
{
    match host.look(script_id()) {
        Reply::Later => Progress::Asked,
        Reply::Now(answer) => by_look(limit, answer),
    }
}

/// Checks the running time of a script that was found alive. Sends it the signal that is due, if any, and reports it.
fn timed<H: Host, E: Reporter>(
    host: &mut H,
    way: ScriptOptions,
    dir: &str,
    link: &str,
    timer: &mut Timer,
    err: &mut E,
)
    ensures calls { NewCallsSatisfy (H.told host.old) (H.told host.new)
        (ScriptProgresses way.seconds Progress.Found timer.old Progress.Living timer.new 0) }
    ensures told { (before : ReportList) → Tells before (E.reports err.old)
        (time_lines way dir.now link.now timer.old) → Tells before (E.reports err.new)
        (time_lines way dir.now link.now timer.new) }
    ensures silent { way.seconds ≡ None → err.new ≡ err.old }
{
    let Ok(now) = host.clock() else {
        return;
    };
    let due = due_at(way.seconds, *timer, now);
    *timer = timer_at(*timer, now, due);
    let Some(signal) = due else {
        return;
    };
    let _ = host.signal(script_id(), signal);
    tell_signal(err, way.seconds, dir, link, signal);
}

/// Pauses, and asks for a late answer.
fn paused<H: Host>(host: &mut H, limit: Option<u32>, progress: Progress) -> Progress
    requires { is_waiting progress ≡ true }
    ensures { NewCallsSatisfy (H.told host.old) (H.told host.new)
        (ScriptContinues limit progress result 1) }
{
    host.pause();
    by_late(limit, progress, host.late())
}

/// Starts a script and waits until it is finished. Returns `None` if no pause is left and it is not finished. If there
/// is a time limit, sends the script SIGTERM after that time and SIGKILL after the grace period, and reports each
/// signal on `err` with its link.
pub(crate) fn run_script<A: Allocator + Copy, H: Host, E: Reporter>(
    alloc: A,
    host: &mut H,
    way: ScriptOptions,
    dir: &str,
    link: &str,
    command: &[u8],
    pauses: &mut u32,
    err: &mut E,
) -> Option<RcAnswer>
    ensures ended { IfSome result (λ given. NewCallsSatisfy (H.told host.old) (H.told host.new)
        (HasRun way dir.now link.now command.now given pauses.old pauses.new
        (E.reports err.old) (E.reports err.new))) }
    ensures limit { IfNone result (NewCallsSatisfy (H.told host.old) (H.told host.new)
        (EndsEarly way dir.now link.now command.now pauses.old (E.reports err.old)
        (E.reports err.new))) }
    ensures silent { way.seconds ≡ None → err.new ≡ err.old }
{
    let mut timer = Timer::Unread;
    let mut progress = started(alloc, host, way.seconds, command);
    loop {
        progress = match progress {
            Progress::Over(answer) => return Some(answer),
            Progress::Born => looked(host, way.seconds),
            Progress::Found => {
                timed(host, way, dir, link, &mut timer, err);
                Progress::Living
            }
            waiting => {
                if *pauses == 0 {
                    return None;
                }
                *pauses -= 1;
                paused(host, way.seconds, waiting)
            }
        };
    }
}

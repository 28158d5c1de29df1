//! Reports of how the turns of a run ended, and the exit status.

ghost use Rattle.std.specs.Prelude.{◌≡◌, ◌++◌, ◌&&◌, ℕ, List, [], Option, None, Some, option_map, string_bytes, IfOk, OnOk};
ghost use Rattle.initd_command.specs.Words.{run_of, waiting_text};
ghost use Rattle.initd_command.specs.Services.{end_of, entry_end, noted_of, turns_at};
ghost use Rattle.initd_command.specs.Turned.{ReportsEnd, ReportsJudgement, ReportsLimit, ReportsResult, ReportsRunning, ReportsText, ReportsTurns, breach_text, child_text, drained_status, end_status, judged_status, judgement_text, lawful_text, result_status, result_text, running_text, turns_status};

use crate::reports::{report, report_lines, report_made};
use core_waiting::waiting_lines;
use indexmap::IndexMap;
use init_words::{ChildNumber, Id, Status};
use initd_options::RunWords;
use itoa::Buffer;
use level_core::Core;
use program_io::{DEVICE_FAULT, DONE, LIMIT_REACHED, Reporter, UNLAWFUL};
use std::alloc::{AllocError, Global};
use supervisor::Served;
use trace_log_wrappers::{Judgement, Numbers, RunNotes};

/// The report if a run made all its turns.
const LIMITED: &str = "initd: turn limit reached\n";

/// The report if the trace was not written in full.
const UNLOGGED: &str = "initd: the trace could not be written\n";

/// The report in place of the children that are still running, if there was no memory to note all of them.
const UNNAMED: &str = "initd: out of memory: not all children that keep running could be listed\n";

/// The report on a run whose judge ran out of memory before the end of the run.
const UNJUDGED: &str = "initd: out of memory: the run could not be judged to its end\n";

/// The exit status of a run if the last child of its entry was killed.
const KILLED: u8 = 137;

/// Reports how the turns of a run ended, and returns its exit status.
pub(crate) fn report_end<E: Reporter>(
    alloc: Global,
    options: &RunWords,
    served: &Served,
    notes: &RunNotes,
    core: &Core,
    judgement: Option<Judgement>,
    err: &mut E,
) -> u8
    ensures status { result ≡ end_status (end_of (run_of options.now)
        (noted_of notes.now (waiting_text core.now) judgement) served.now) }
    ensures reported { ReportsEnd (end_of (run_of options.now)
        (noted_of notes.now (waiting_text core.now) judgement) served.now)
        (E.reports err.old) (E.reports err.new) }
{
    let status = report_turns(alloc, options, served, notes, core, err);
    report_judgement(alloc, served.logged, judgement, err);
    judged_status(judgement, status)
}

/// Reports how the turns ended, and returns their exit status, without a verdict.
fn report_turns<E: Reporter>(
    alloc: Global,
    options: &RunWords,
    served: &Served,
    notes: &RunNotes,
    core: &Core,
    err: &mut E,
) -> u8
    ensures status { result ≡ turns_status (turns_at (run_of options.now)
        (noted_of notes.now (waiting_text core.now) None) served.now.logged
        ((run_of options.now).drain && served.now.drained)) }
    ensures reported { ReportsTurns (turns_at (run_of options.now)
        (noted_of notes.now (waiting_text core.now) None) served.now.logged
        ((run_of options.now).drain && served.now.drained))
        (E.reports err.old) (E.reports err.new) }
{
    let is_drained = options.drain && served.drained;
    if !served.logged {
        report(UNLOGGED, err);
        if is_drained {
            report_waiting(alloc, core, err);
        } else {
            report_lost_limit(alloc, core, err);
        }
        return DEVICE_FAULT;
    }
    if is_drained {
        return report_result(alloc, options.result, notes, err);
    }
    report_limit(alloc, notes, core, err);
    LIMIT_REACHED
}

/// Reports that all turns were made, the children that are still running, and what init waits for.
fn report_limit<E: Reporter>(alloc: Global, notes: &RunNotes, core: &Core, err: &mut E)
    ensures { ReportsLimit (noted_of notes.now [] None).running (waiting_text core.now)
        (E.reports err.old) (E.reports err.new) }
{
    report(LIMITED, err);
    report_running(alloc, notes, err);
    report_waiting(alloc, core, err);
}

/// Makes the same report for a run whose trace was lost, and with it the notes on later children. It names the
/// children in init's records instead.
fn report_lost_limit<E: Reporter>(alloc: Global, core: &Core, err: &mut E)
    ensures { (running : Option (List (List ℕ × ℕ))) × ReportsLimit running
        (waiting_text core.now) (E.reports err.old) (E.reports err.new) }
{
    report(LIMITED, err);
    let children = children_of(alloc, core);
    report_children(alloc, &children, err);
    report_waiting(alloc, core, err);
}

/// Returns the children in init's records; `None` if there is no memory for them.
fn children_of(alloc: Global, core: &Core) -> Option<Numbers> {
    let mut children: Numbers = IndexMap::new(alloc);
    for record in core.slots().as_slice() {
        if let Some(number) = record.child() {
            children.insert(record.id(), number).ok()?;
        }
    }
    Some(children)
}

/// Reports these children, if there are any, or that there was no memory for them.
fn report_children<E: Reporter>(alloc: Global, children: &Option<Numbers>, err: &mut E)
    ensures { ReportsRunning (option_map (λ numbers. numbers.entries) children.now)
        (E.reports err.old) (E.reports err.new) }
{
    match children {
        Some(numbers) if numbers.is_empty() => {}
        Some(numbers) => report_lines(running_text(alloc, numbers), err),
        None => report(UNNAMED, err),
    }
}

/// Reports what init waits for.
fn report_waiting<E: Reporter>(alloc: Global, core: &Core, err: &mut E)
    ensures { ReportsText (waiting_text core.now) (E.reports err.old) (E.reports err.new) }
{
    report_lines(waiting_lines(alloc, core), err);
}

/// Returns the exit status of a run, given the status of its turns: the verdict replaces success and the limit of
/// turns if it is a breach, or if not everything was judged.
fn judged_status(judgement: Option<Judgement>, status: u8) -> u8
    ensures { result ≡ judged_status judgement status }
{
    if status != DONE && status != LIMIT_REACHED {
        return status;
    }
    match judgement {
        Some(Judgement::Breach(_, _)) => UNLAWFUL,
        Some(Judgement::Unjudged) => DEVICE_FAULT,
        Some(Judgement::Lawful(_)) | None => status,
    }
}

/// Reports the verdict on a run that was to be judged. The verdict is on the whole run, or on the part before its log
/// failed.
fn report_judgement<E: Reporter>(
    alloc: Global,
    whole: bool,
    judgement: Option<Judgement>,
    err: &mut E,
)
    ensures { ReportsJudgement whole judgement (E.reports err.old) (E.reports err.new) }
{
    if let Some(judgement) = judgement {
        report_made(judgement_text(alloc, whole, judgement), err);
    }
}

fn judgement_text(alloc: Global, whole: bool, judgement: Judgement) -> Result<String, AllocError>
    ensures { IfOk result (λ text. string_bytes text ≡ judgement_text whole judgement) }
{
    match judgement {
        Judgement::Lawful(count) => lawful_text(alloc, whole, count),
        Judgement::Breach(position, law) => breach_text(alloc, position, law.words()),
        Judgement::Unjudged => String::from_str(alloc, UNJUDGED),
    }
}

fn lawful_text(alloc: Global, whole: bool, count: u64) -> Result<String, AllocError>
    ensures { IfOk result (λ text. string_bytes text ≡ lawful_text whole count) }
{
    if whole {
        return format!(in alloc; "initd: the run was lawful: {count} happenings\n");
    }
    format!(in alloc; "initd: the judged part of the run was lawful: {count} happenings\n")
}

fn breach_text(alloc: Global, position: u64, why: &str) -> Result<String, AllocError>
    ensures { IfOk result (λ text. string_bytes text ≡ breach_text position why.now) }
{
    format!(in alloc; "initd: the run was unlawful: happening {position}: {why}\n")
}

/// Reports how the last child of the entry of `--result` ended, if the option is given, and returns the exit status.
fn report_result<E: Reporter>(alloc: Global, entry: Option<Id>, notes: &RunNotes, err: &mut E) -> u8
    ensures status { result ≡ drained_status (entry_end (noted_of notes.now [] None).last entry) }
    ensures reported { ReportsResult (entry_end (noted_of notes.now [] None).last entry)
        (E.reports err.old) (E.reports err.new) }
{
    let Some(id) = entry else {
        return DONE;
    };
    let last = notes.last();
    report_made(result_text(alloc, id.as_str(), last), err);
    result_status(last)
}

fn result_status(last: Option<Status>) -> u8
    ensures { result ≡ result_status last }
{
    match last {
        Some(Status::Exit(code)) => code,
        Some(Status::Killed) => KILLED,
        None => DEVICE_FAULT,
    }
}

fn result_text(alloc: Global, id: &str, last: Option<Status>) -> Result<String, AllocError>
    ensures { IfOk result (λ text.
        string_bytes text ≡ result_text (record { id = id.now; last = last })) }
{
    match last {
        Some(Status::Exit(code)) => format!(in alloc; "initd: {id} exited with status {code}\n"),
        Some(Status::Killed) => format!(in alloc; "initd: {id} was killed\n"),
        None => format!(in alloc; "initd: {id} never ended\n"),
    }
}

/// Reports the children that are still running, if there are any, or that there was no memory to note all of them.
fn report_running<E: Reporter>(alloc: Global, notes: &RunNotes, err: &mut E)
    ensures { ReportsRunning (noted_of notes.now [] None).running (E.reports err.old)
        (E.reports err.new) }
{
    match notes.running() {
        Some(numbers) if numbers.is_empty() => {}
        Some(numbers) => report_lines(running_text(alloc, numbers), err),
        None => report(UNNAMED, err),
    }
}

fn running_text(alloc: Global, running: &Numbers) -> Result<Vec<u8>, AllocError>
    ensures { IfOk result (λ text. text.items ≡ running_text running.now.entries) }
{
    let mut text = Vec::new(alloc);
    let mut front: &[u8] = b"initd: still running: ";
    for (id, number) in running.iter() {
        add_child(&mut text, front, id, *number)?;
        front = b", ";
    }
    text.push(b'\n')?;
    Ok(text)
}

/// Adds a child that is still running to a text, after `front`.
fn add_child(
    text: &mut Vec<u8>,
    front: &[u8],
    id: &Id,
    number: ChildNumber,
) -> Result<(), AllocError>
    ensures { OnOk result (text.new.items
        ≡ text.old.items ++ (front.now ++ child_text (id.now, number))) }
{
    let mut digits = Buffer::new();
    text.extend_from_slice(front)?;
    text.extend_from_slice(id.as_bytes())?;
    text.push(b' ')?;
    text.extend_from_slice(digits.format(number.0).as_bytes())?;
    Ok(())
}

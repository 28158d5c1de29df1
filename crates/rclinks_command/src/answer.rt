//! Computes the answer to a command line as a value, and then carries it out: writes the report, and prints a text or
//! makes changes.

ghost use Rattle.std.specs.Prelude.{◌≡◌, ◌⊎◌, ℕ, false, [], map, take, IfErr, IfOk, OnOk};
ghost use Rattle.std.specs.Io.KnownBytes.{Appends};
ghost use Rattle.program_io.specs.Reports.{AppendsReport, LastReportNonempty};
ghost use Rattle.program_io.specs.Writing.{AppendsPrefix};
ghost use Rattle.rc_links.specs.AllLast.{with_all};
ghost use Rattle.rc_links.specs.Plans.{IsPlan};
ghost use Rattle.rclinks_command.specs.Answers.{Did, DidPart, IsRefusal, IsWork, makes, prints};
ghost use Rattle.rclinks_command.specs.Command.{HasNoPlan, IsRefusedBy, IsRefusedFor, PlanOf, ScriptsOf, TakenBy, keeps_going};
ghost use Rattle.rclinks_command.specs.Folders.{Becomes, changed_by};
ghost use Rattle.rclinks_command.specs.Refusals.{refusal_status};
ghost use Rattle.rclinks_command.specs.Reports.{ReportsRefused, TellsPlan};
ghost use Rattle.rclinks_command.specs.LineOptions.{line_options};

use crate::files::refusal_for;
use crate::folders::LinkFolders;
use crate::line::Line;
use crate::planned::refuse_unlisted;
use crate::reading::{Reading, read_files};
use crate::report::{Refusal, add_warnings};
use crate::skipping::{add_first, plan_rest, refusal_of};
use crate::telling::odd_names;
use crate::writing::{changes_for, changes_text, failure_lines, make_changes};
use init_words::Memory;
use program_io::{
    DEVICE_FAULT, DONE, REFUSED, Reporter, Texts, report_fault, report_no_memory, write_text,
};
use rc_links::{LinkChange, Plan, PlanFault, add_all, plan};
use std::alloc::Global;
use std::io::Write;

/// The work of a run.
#[derive(Drop)]
pub(crate) enum Work<'w> {
    /// Prints a text.
    Print(Vec<u8>),
    /// Makes changes in the folders of a directory.
    Change(&'w str, Vec<LinkChange>),
}

/// The report, which is written first, and the work that follows it.
#[derive(Drop)]
pub(crate) struct Answer<'w> {
    report: Vec<u8>,
    work: Result<Work<'w>, Refusal>,
}

/// Returns the plan of the scripts. Reports the first fault, or all of them if `all` is set.
fn plan_all(alloc: Global, all: bool, reading: &mut Reading) -> Result<Plan, Refusal>
    ensures planned { IfOk result (IsPlan reading.old.scripts.items) }
    ensures refused { IfErr result (λ refusal. refusal_status refusal ≡ REFUSED
        → HasNoPlan reading.old.scripts.items) }
    ensures told { all ≡ false → IfErr result (λ refusal. refusal_status refusal ≡ REFUSED
        → TellsPlan reading.old.scripts.items reading.old.report.items
        reading.new.report.items) }
{
    match plan(alloc, reading.scripts.as_slice()) {
        Ok(plan) => Ok(plan),
        Err(fault) => {
            if all {
                let _ = plan_rest(alloc, false, reading);
            } else {
                add_first(alloc, &fault, reading)?;
            }
            Err(refusal_of(&fault))
        }
    }
}

/// Inserts the facility `$all` before the scripts if the scripts that name it are to come last.
fn add_last(alloc: Global, last: bool, reading: &mut Reading) -> Result<(), Memory>
    ensures scripts { OnOk result
        (reading.new.scripts.items ≡ with_all last reading.old.scripts.items) }
    ensures untold { reading.new.report ≡ reading.old.report }
{
    if last {
        add_all(alloc, &mut reading.scripts)?;
        reading.paths.insert(0, "--all-last")?;
    }
    Ok(())
}

/// Returns the plan of the files' scripts.
fn plan_of<'w, T: Texts>(
    texts: &T,
    alloc: Global,
    line: &Line<'_, 'w>,
    reading: &mut Reading<'w>,
) -> Result<Plan, Refusal>
    requires { reading.old.scripts.items ≡ [] }
    ensures planned { IfOk result (λ plan. ScriptsOf (T.text_at texts.now) line.now.skips
        line.now.last (map (λ file. file.now) line.now.files.now)
        (λ scripts. IsPlan scripts plan)) }
    ensures refused { IfErr result (λ refusal. refusal_status refusal ≡ REFUSED
        → IsRefusedFor (T.text_at texts.now) line.now.skips line.now.last
        (map (λ file. file.now) line.now.files.now)) }
    ensures told { keeps_going (line_options line.now) ≡ false
        → IfErr result (λ refusal. refusal_status refusal ≡ REFUSED
        → ReportsRefused (T.text_at texts.now) line.now.last
        (map (λ file. file.now) line.now.files.now) reading.old.report.items
        reading.new.report.items) }
{
    let faults = read_files(texts, alloc, line, reading)?;
    add_last(alloc, line.last, reading)?;
    let first = faults.first();
    if let Some(fault) = first
        && !line.keeps_going()
    {
        return Err(refusal_for(fault));
    }
    let odd = odd_names(alloc, reading);
    add_warnings(&mut reading.report, odd.as_slice())?;
    if line.skips {
        return plan_rest(alloc, true, reading);
    }
    match first {
        None => plan_all(alloc, line.all, reading),
        Some(fault) => {
            let _ = plan_rest(alloc, false, reading);
            Err(refusal_for(fault))
        }
    }
}

/// Returns the work for a plan.
fn work_of<'w, F: LinkFolders>(
    folders: &F,
    alloc: Global,
    line: &Line<'_, 'w>,
    plan: Plan,
    report: &mut Vec<u8>,
) -> Result<Work<'w>, Refusal>
    ensures asked { IfOk result (λ work. IsWork (line_options line.now).dir (line_options line.now)
        (F.scripts_in folders.now) (F.held folders.now) work plan) }
    ensures taken { IfErr result (λ refusal. refusal_status refusal ≡ REFUSED
        → TakenBy (line_options line.now).dir (line_options line.now) (F.scripts_in folders.now)
        (F.held folders.now) plan) }
{
    let Some(dir) = line.dir else {
        return Ok(Work::Print(plan.print(alloc)?));
    };
    let changes = match changes_for(folders, alloc, dir, line, plan, report) {
        Ok(Some(changes)) => changes,
        Ok(None) => return Err(Refusal::Refused),
        Err(fault) => return Err(refuse_unlisted(dir, &fault, report)),
    };
    if line.dry {
        return Ok(Work::Print(changes_text(alloc, changes.as_slice())?));
    }
    Ok(Work::Change(dir, changes))
}

/// Returns the answer to a command line. Reads files and folders, and changes nothing.
pub(crate) fn answer_of<'w, T: Texts, F: LinkFolders>(
    texts: &T,
    folders: &F,
    alloc: Global,
    line: &Line<'_, 'w>,
) -> Answer<'w>
    ensures asked { IfOk result.work (λ work. PlanOf (T.text_at texts.now) (line_options line.now)
        (IsWork (line_options line.now).dir (line_options line.now) (F.scripts_in folders.now)
        (F.held folders.now) work)) }
    ensures refused { IfErr result.work (λ refusal. refusal_status refusal ≡ REFUSED
        → IsRefusedBy (T.text_at texts.now) (line_options line.now) (F.scripts_in folders.now)
        (F.held folders.now)) }
    ensures told { keeps_going (line_options line.now) ≡ false
        → IfErr result.work (λ refusal. refusal_status refusal ≡ REFUSED
        → ReportsRefused (T.text_at texts.now) line.now.last
        (map (λ file. file.now) line.now.files.now) [] result.report.items
        ⊎ PlanOf (T.text_at texts.now) (line_options line.now) (TakenBy (line_options line.now).dir
        (line_options line.now) (F.scripts_in folders.now) (F.held folders.now))) }
{
    let mut reading = Reading {
        scripts: Vec::new(alloc),
        paths: Vec::new(alloc),
        outs: Vec::new(alloc),
        report: Vec::new(alloc),
    };
    let work = match plan_of(texts, alloc, line, &mut reading) {
        Ok(plan) => work_of(folders, alloc, line, plan, &mut reading.report),
        Err(refusal) => Err(refusal),
    };
    Answer {
        report: reading.report,
        work,
    }
}

/// Prints a text, and returns the exit status.
fn print<W: Write, E: Reporter>(text: &[u8], out: &mut W, err: &mut E) -> u8
    ensures statuses { (result ≡ DONE) ⊎ (result ≡ DEVICE_FAULT) }
    ensures done { result ≡ DONE → Appends (W.contents out.old) (W.contents out.new) text.now }
    ensures part { AppendsPrefix (W.contents out.old) (W.contents out.new) text.now }
    ensures spoken { result ≡ DEVICE_FAULT → LastReportNonempty (E.reports err.new) }
{
    if write_text(out, text).is_err() || out.flush().is_err() {
        return report_fault("rclinks", "cannot write", err);
    }
    DONE
}

/// Makes the changes of an answer, and returns the exit status.
fn change<F: LinkFolders, E: Reporter>(
    folders: &mut F,
    alloc: Global,
    dir: &str,
    changes: &[LinkChange],
    err: &mut E,
) -> u8
    ensures statuses { (result ≡ DONE) ⊎ (result ≡ DEVICE_FAULT) }
    ensures done { result ≡ DONE
        → Becomes (F.held folders.old) (F.held folders.new) (changed_by dir.now changes.now) }
    ensures part { (count : ℕ) × Becomes (F.held folders.old) (F.held folders.new)
        (changed_by dir.now (take count changes.now)) }
    ensures spoken { result ≡ DEVICE_FAULT → LastReportNonempty (E.reports err.new) }
{
    match make_changes(folders, alloc, dir, changes) {
        Ok(()) => DONE,
        Err(failure) => report_lines(&failure_lines(alloc, dir, changes, &failure), err),
    }
}

/// Reports lines about a fault, or that there was no memory for them, and returns the exit status.
fn report_lines<E: Reporter>(lines: &[u8], err: &mut E) -> u8
    ensures status { result ≡ DEVICE_FAULT }
    ensures spoken { LastReportNonempty (E.reports err.new) }
{
    if lines.is_empty() {
        return report_no_memory("rclinks", err);
    }
    err.report(lines);
    DEVICE_FAULT
}

/// Writes the report of an answer, carries it out, and returns the exit status.
pub(crate) fn write<F: LinkFolders, W: Write, E: Reporter>(
    folders: &mut F,
    alloc: Global,
    answer: &Answer,
    out: &mut W,
    err: &mut E,
) -> u8
    ensures statuses { (result ≡ DONE) ⊎ (result ≡ REFUSED) ⊎ (result ≡ DEVICE_FAULT) }
    ensures done { result ≡ DONE → Did answer.now.work (F.held folders.old) (F.held folders.new)
        (W.contents out.old) (W.contents out.new) }
    ensures refused { result ≡ REFUSED → IsRefusal answer.now.work
        × AppendsReport (E.reports err.old) (E.reports err.new) answer.now.report.items
        × (out.new ≡ out.old) × (folders.new ≡ folders.old) }
    ensures kept { makes answer.now.work ≡ false → folders.new ≡ folders.old }
    ensures silent { prints answer.now.work ≡ false → out.new ≡ out.old }
    ensures part { (out.new ≡ out.old) × (folders.new ≡ folders.old)
        ⊎ DidPart answer.now.work (F.held folders.old) (F.held folders.new)
        (W.contents out.old) (W.contents out.new) }
    ensures spoken { result ≡ DEVICE_FAULT → LastReportNonempty (E.reports err.new) }
{
    err.report(answer.report.as_slice());
    match &answer.work {
        Ok(Work::Print(text)) => print(text.as_slice(), out, err),
        Ok(Work::Change(dir, changes)) => change(folders, alloc, dir, changes.as_slice(), err),
        Err(Refusal::Refused) => REFUSED,
        Err(Refusal::Failed) if !answer.report.is_empty() => DEVICE_FAULT,
        Err(Refusal::Failed | Refusal::Memory) => report_no_memory("rclinks", err),
    }
}

//! Plans scripts without the faulty ones, which are omitted one after another: for `--skip`, or to report all faults
//! of scripts whose plan is not used (`--all`).

ghost use Rattle.std.specs.Prelude.{◌≡◌, ◌<◌, ◌+◌, ◌++◌, [], IfOk, IfErr, OnOk, length, take, drop};
ghost use Rattle.rc_links.specs.FaultTexts.{fault_text};
ghost use Rattle.rc_links.specs.Plans.{IsPlan};
ghost use Rattle.rclinks_command.specs.Command.{HasNoPlan, plan_status};
ghost use Rattle.rclinks_command.specs.Refusals.{refusal_status};
ghost use Rattle.rclinks_command.specs.Reports.{ReportsReason};
ghost use Rattle.rclinks_command.specs.Skipping.{LeavesSome};

use crate::faulty::{is_provided, place_of};
use crate::reading::Reading;
use crate::report::{Refusal, add_lines, add_why};
use crate::telling::{last_lines, who_lines};
use init_words::Memory;
use program_io::REFUSED;
use rc_links::{Plan, PlanFault, plan};
use std::alloc::Global;
use std::io::Write;

/// Returns the refusal of a run for a fault of the plan.
pub(crate) fn refusal_of(fault: &PlanFault) -> Refusal
    ensures { refusal_status result ≡ plan_status fault.now }
{
    match fault {
        PlanFault::Memory => Refusal::Failed,
        _ => Refusal::Refused,
    }
}

/// Reports the first fault of the scripts, if none is omitted, and the scripts that cause it.
pub(crate) fn add_first(
    alloc: Global,
    fault: &PlanFault,
    reading: &mut Reading,
) -> Result<(), Memory>
    ensures { OnOk result (ReportsReason [] (fault_text fault.now) reading.old.report.items
        reading.new.report.items) }
{
    let why = format!(in alloc; "{fault}")?;
    let more = match place_of(reading.scripts.as_slice(), fault) {
        Some(position) => who_lines(alloc, fault, reading, position, true),
        None => last_lines(alloc, fault),
    };
    add_why(&mut reading.report, "", why.as_str(), more.as_slice())
}

/// Reports a fault of scripts that have no plan, and the scripts that cause it: the one at the position, which is
/// omitted next, and the others. If the plan of the rest is not used (`skips` is false), a name that is missing only
/// because the script that provides it was omitted is not reported.
fn tell_fault(
    alloc: Global,
    fault: &PlanFault,
    position: usize,
    skips: bool,
    reading: &mut Reading,
) -> Result<(), Memory>
    ensures { reading.new.scripts ≡ reading.old.scripts }
{
    if let PlanFault::Missing(name) = fault
        && !skips
        && is_provided(reading.outs.as_slice(), name.as_str())
    {
        return Ok(());
    }
    let more = who_lines(alloc, fault, reading, position, false);
    let path = reading.path_at(position);
    let _ = writeln!(reading.report, "rclinks: {fault}");
    add_lines(&mut reading.report, "", more.as_slice())?;
    if skips {
        let _ = writeln!(reading.report, "rclinks: {path}: skipped");
    }
    Ok(())
}

/// Moves the script at a position to the omitted scripts, and removes its path.
fn leave_out(reading: &mut Reading, position: usize) -> Result<(), Memory>
    requires { position < length reading.old.scripts.items }
    ensures { reading.new.scripts.items
        ≡ take position reading.old.scripts.items ++ drop (position + 1) reading.old.scripts.items }
{
    if position < reading.paths.len() {
        reading.paths.remove(position);
    }
    let script = reading.scripts.remove(position);
    reading.outs.push(script)?;
    Ok(())
}

/// Plans the scripts. While they have no plan, a script that causes the fault is reported and omitted. If no script
/// causes it, the fault is reported, and there is no plan.
pub(crate) fn plan_rest(alloc: Global, skips: bool, reading: &mut Reading) -> Result<Plan, Refusal>
    ensures planned { IfOk result (IsPlan reading.new.scripts.items) }
    ensures refused { IfErr result (λ refusal. refusal_status refusal ≡ REFUSED
        → HasNoPlan reading.new.scripts.items) }
    ensures left { LeavesSome reading.old.scripts.items reading.new.scripts.items }
{
    loop {
        let fault = match plan(alloc, reading.scripts.as_slice()) {
            Ok(plan) => return Ok(plan),
            Err(fault) => fault,
        };
        let Some(position) = place_of(reading.scripts.as_slice(), &fault) else {
            let _ = writeln!(reading.report, "rclinks: {fault}");
            let more = last_lines(alloc, &fault);
            add_lines(&mut reading.report, "", more.as_slice())?;
            return Err(refusal_of(&fault));
        };
        tell_fault(alloc, &fault, position, skips, reading)?;
        leave_out(reading, position)?;
    }
}

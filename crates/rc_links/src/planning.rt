//! Assigns numbers to scripts, or reports why that is impossible.

ghost use Rattle.std.specs.Prelude.{◌≡◌, ◌≤◌, ◌<◌, IfOk, IfErr, IfSome, IfNone, None, length, map, string_bytes};
ghost use Rattle.std.specs.List.{AllByRecursion};
ghost use Rattle.rc_numbers.specs.Numbering.{AllBelow};
ghost use Rattle.rc_links.specs.Faults.{IsAnyDeep, IsRound, IsTooDeep, FaultSatisfies};
ghost use Rattle.rc_links.specs.Plans.{AreLeast, IsPlan, IsRefused, IsShort, names_at, planned, planned_all};
ghost use Rattle.rc_links.specs.Tables.{HasPlaces};

use crate::faults::PlanFault;
use crate::needs::{Phase, needs};
use crate::plans::{Plan, Planned};
use crate::scripts::Script;
use crate::tables::{Providers, check_missing, table_of};
use init_words::Memory;
use rc_numbers::ordered;
use std::alloc::Allocator;

/// The greatest number of a link.
const NUMBER_LIMIT: usize = 99;

/// Returns the names of the scripts at these positions.
fn names_at<A: Allocator + Copy>(
    alloc: A,
    scripts: &[Script<A>],
    places: &[usize],
) -> Result<Vec<String<A>, A>, Memory>
    requires { AllBelow (length scripts.now) places.now }
    ensures { IfOk result (λ names.
        map string_bytes names.items ≡ names_at scripts.now places.now) }
{
    let mut names = Vec::new(alloc);
    for position in places {
        names.push(String::from_str(alloc, scripts[*position].name())?)?;
    }
    Ok(names)
}

/// Returns the least numbers of the scripts, or the fault of a cycle.
fn numbered<A: Allocator + Copy>(
    alloc: A,
    phase: Phase,
    scripts: &[Script<A>],
    table: &Providers<'_, A>,
) -> Result<Vec<usize, A>, PlanFault<A>>
    requires { HasPlaces scripts.now table.now }
    ensures least { IfOk result (λ numbers. AreLeast phase scripts.now numbers.items) }
    ensures round { IfErr result (FaultSatisfies (IsRound phase scripts.now)) }
{
    let edges = needs(alloc, phase, scripts, table)?;
    match ordered(alloc, scripts.len(), edges.as_slice())? {
        Ok(numbers) => Ok(numbers),
        Err(cycle) => Err(PlanFault::Cycle(names_at(alloc, scripts, cycle.as_slice())?)),
    }
}

/// Returns a number as it appears in a link, if it is not too great.
fn link_number(number: usize) -> Option<u8>
    ensures some { IfSome result (λ given. (given ≡ number) × (number ≤ NUMBER_LIMIT)) }
    ensures deep { IfNone result (NUMBER_LIMIT < number) }
{
    if number > NUMBER_LIMIT {
        return None;
    }
    Some(number as u8)
}

/// Returns a script with these numbers.
fn planned<A: Allocator + Copy>(
    alloc: A,
    script: &Script<A>,
    start: u8,
    stop: u8,
) -> Result<Planned<A>, Memory>
    ensures { IfOk result (λ s. s ≡ planned script.now start stop) }
{
    let header = script.header();
    Ok(Planned {
        name: String::from_str(alloc, script.name())?,
        start,
        stop,
        starts: Vec::from_slice(alloc, header.default_start())?,
        stops: Vec::from_slice(alloc, header.default_stop())?,
    })
}

/// Returns a script with these numbers, if they are not too great.
fn with_numbers<A: Allocator + Copy>(
    alloc: A,
    script: &Script<A>,
    start: usize,
    stop: usize,
) -> Result<Planned<A>, PlanFault<A>>
    ensures planned { IfOk result (λ s. s ≡ planned script.now start stop) }
    ensures short { IfOk result IsShort }
    ensures deep { IfErr result (FaultSatisfies (IsTooDeep start stop)) }
{
    let (Some(start), Some(stop)) = (link_number(start), link_number(stop)) else {
        return Err(PlanFault::TooDeep);
    };
    Ok(planned(alloc, script, start, stop)?)
}

/// Returns the scripts with these numbers, if they are not too great.
fn planned_all<A: Allocator + Copy>(
    alloc: A,
    scripts: &[Script<A>],
    starts: &[usize],
    stops: &[usize],
) -> Result<Vec<Planned<A>, A>, PlanFault<A>>
    requires starts { length starts.now ≡ length scripts.now }
    requires stops { length stops.now ≡ length scripts.now }
    ensures planned { IfOk result (λ plan.
        plan.items ≡ planned_all scripts.now starts.now stops.now) }
    ensures short { IfOk result (λ plan. AllByRecursion IsShort plan.items) }
    ensures deep { IfErr result (FaultSatisfies (IsAnyDeep starts.now stops.now)) }
{
    let mut plan = Vec::new(alloc);
    for position in 0..scripts.len() {
        let script = with_numbers(alloc, &scripts[position], starts[position], stops[position])?;
        plan.push(script)?;
    }
    Ok(plan)
}

/// Assigns each script its least numbers, or returns the first check that fails.
pub fn plan<A: Allocator + Copy>(alloc: A, scripts: &[Script<A>]) -> Result<Plan<A>, PlanFault<A>>
    ensures planned { IfOk result (λ plan. IsPlan scripts.now plan) }
    ensures refused { IfErr result (λ fault. IsRefused scripts.now fault) }
{
    let table = table_of(alloc, scripts)?;
    check_missing(alloc, scripts, &table)?;
    let starts = numbered(alloc, Phase::Start, scripts, &table)?;
    let stops = numbered(alloc, Phase::Stop, scripts, &table)?;
    let plan = planned_all(alloc, scripts, starts.as_slice(), stops.as_slice())?;
    Ok(Plan { scripts: plan })
}

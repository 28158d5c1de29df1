//! Tests of the simulated system of `simulate`: the happenings that it allows, its objections, and the answers under
//! way.

use simulator::SimulatedSystem;
use std::alloc::Global;
use std::test::Fail;
use test_support::{answer_of, boxed, first_difference, happening_of};
use trace_events::{Happening, HappeningIn};

/// Lines for the simulated system, including orders of init; after ` ! ` comes the objection to a line. `owes` has the
/// answer under way for an id.
const RUNS: &[&str] = &[
    // The children of a and b have the number 7 one after the other: it is free only after the first is reaped.
    "birth a 7 ! no start of a is open / ask a start / birth a 7 / nobirth a ! no start of a is \
     open / owes birth a 7 / told a / told a ! there is nothing to tell of a / ask a look / \
     reaped a 7 killed ! a has no dead child with the number 7 / nolook a / told a / death 7 / \
     death 7 ! no living child has the number 7 / ask b start / birth b 7 ! an unreaped child has \
     the number 7 / ask a look / reaped a 7 killed / owes reaped a 7 killed / birth b 7 / owes \
     birth b 7",
    // Two children are alive at once: one is reaped while the other is alive, and then the other.
    "ask a start / ask b start / birth a 7 / birth b 7 ! an unreaped child has the number 7 / birth b 8 / told a / told b / \
     ask a look / ask b look / death 7 / reaped b 7 exit 0 ! b has no dead child with the number 7 / \
     reaped b 8 exit 0 ! b has no dead child with the number 8 / \
     reaped a 8 exit 0 ! a has no dead child with the number 8 / reaped a 7 exit 0 / owes reaped a 7 exit 0 / \
     death 7 ! no living child has the number 7 / death 8 / reaped b 8 killed / owes reaped b 8 killed",
    // Each objection, and the happenings that never meet one.
    "birth a 7 ! no start of a is open / nobirth a ! no start of a is open / told a ! there is \
     nothing to tell of a / death 7 ! no living child has the number 7 / ask a start / ask b~!c \
     start / still a ! no look of a is open / birth a 4294967295 / nobirth a ! no start of a is \
     open / birth b~!c 4294967295 ! an unreaped child has the number 4294967295 / told a / reaped \
     a 4294967295 exit 0 ! no look of a is open / nolook a ! no look of a is open / ask a look / \
     reaped a 4294967295 exit 0 ! a has no dead child with the number 4294967295 / death \
     4294967295 / death 4294967295 ! no living child has the number 4294967295 / birth b~!c \
     4294967295 ! an unreaped child has the number 4294967295 / reaped a 8 killed ! a has no dead \
     child with the number 8 / reaped b~!c 4294967295 killed ! no look of b~!c is open / reaped a \
     4294967295 killed / told a / hit a ! no term or kill of a is open / miss b~!c ! no term or \
     kill of b~!c is open / ask a term / hit a / miss a ! no term or kill of a is open / told a / \
     ask a kill / miss a / enter S 5 ! this is a step of init itself / call A ! this is a step of \
     init itself / power ok ! this is a step of init itself / ask a look ! this is a step of init \
     itself / hold a ! this is a step of init itself / settle 2 ! this is a step of init itself / \
     use 0 ! init is not reading the inittab now / handed whole / notread / got reload / clock 5 \
     / nudge",
];

/// Reports whether this is the objection to the happening.
fn is_refused(
    global: Global,
    side: &SimulatedSystem,
    happening: &HappeningIn<Global>,
    text: &str,
) -> Option<bool> {
    let why = side.objection(happening)?;
    let told = format!(in global; "{why}").ok()?;
    Some(!side.allows(happening) && told.as_str() == text)
}

/// Reports whether the line has the expected result: its answer is under way, there is this objection, or it is an
/// order or an allowed happening and is accepted.
fn goes(global: Global, side: &mut SimulatedSystem, line: &str) -> Option<bool> {
    if let Some(owed) = line.strip_prefix("owes ") {
        let (id, answer) = answer_of(&happening_of(global, owed)?)?;
        return Some(side.answer(&id) == Some(answer));
    }
    let (event_line, why) = line.split_once(" ! ").unwrap_or((line, ""));
    let happening = happening_of(global, event_line)?;
    if !why.is_empty() {
        return is_refused(global, side, &happening, why);
    }
    let may_come = matches!(happening, Happening::Asked(_, _)) || side.allows(&happening);
    Some(may_come && side.take(&happening).is_ok())
}

/// Returns the first line of a run that does not have the expected result; empty if all do.
fn run_difference(global: Global, run: &str) -> Option<String> {
    let mut side = boxed(global, SimulatedSystem::new(global)).ok()?;
    for (position, line) in run.split(" / ").enumerate() {
        if !goes(global, &mut side, line)? {
            let number = position.saturating_add(1);
            return format!(in global; "line {number} goes otherwise: {line}").ok();
        }
    }
    Some(String::new(global))
}

#[test]
fn the_system_is_simulated(rt: HostRuntime) -> Result<(), Fail> {
    let told = first_difference(rt.alloc(), RUNS, |global, run| run_difference(global, run))?;
    assert!(rt; told.is_empty(), "{told}");
    Ok(())
}

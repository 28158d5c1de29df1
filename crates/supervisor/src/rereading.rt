//! Reads inittab again while init runs (telinit(8), `q`).

ghost use Rattle.std.specs.Prelude.{◌≡◌, ◌∷◌, [], true, false, List, Ok};
ghost use Rattle.init_words.specs.Parts.{texts_of};
ghost use Rattle.inittab_text.specs.Parts.{table_of_texts};
ghost use Rattle.supervisor.specs.Words.{NewTable, Event, is_quiet, ReadTables, PartsRead, FitsExtendedTrace, ForAllFittedTraces, AddsStamped, ExtendsLogFromCore, TookFirstDueStep, KeepsSecondsAndGeneration, Logs, Tracks, may_take};
ghost use Rattle.trace_events.specs.declared.steps.Step.TheVariants as step;
ghost use Rattle.supervisor.specs.Parts.{IsReread, MadeCallsLead};

use crate::edges::Edge;
use host_calls::Host;
use init_words::Part;
use inittab_text::read_parts;
use level_core::Core;
use std::alloc::Allocator;
use trace_events::{Happening, HappeningIn};
use trace_log::Log;

/// Puts the table of these files in force, and returns whether it did. A strict init does so only if no line is faulty.
fn use_parts<A: Allocator + Copy, H: Host, L: Log>(
    alloc: A,
    core: &mut Core<A>,
    edge: &mut Edge<H, L>,
    parts: &[Part<A>],
    strict: bool,
) -> bool
    ensures taken { result ≡ true → may_take strict (Ok parts.now) ≡ true }
    ensures quiet { result ≡ true → is_quiet core.old.slots ≡ true }
    ensures fits { result ≡ true → ForAllFittedTraces core.old (λ goal past.
        FitsExtendedTrace core.old core.new goal past
        (NewTable (table_of_texts (texts_of parts.now)) ∷ past)) }
    ensures lasts { result ≡ true → KeepsSecondsAndGeneration core.old core.new }
    ensures took { result ≡ true → (past : List Event)
        → Logs (L.state edge.old.log) (L.state edge.new.log) past
        (NewTable (table_of_texts (texts_of parts.now)) ∷ past) }
    ensures core { result ≡ false → core.new ≡ core.old }
    ensures log { result ≡ false → edge.new.log ≡ edge.old.log }
    ensures told { edge.new.told ≡ edge.old.told }
    ensures grows { ExtendsLogFromCore core.old core.new (L.state edge.old.log)
        (L.state edge.new.log) }
    ensures settings { H.settings edge.new.host ≡ H.settings edge.old.host }
{
    let Ok((table, faults)) = read_parts(alloc, parts) else {
        return false;
    };
    if strict && !faults.is_empty() {
        return false;
    }
    let Ok(copy) = table.copy(alloc) else {
        return false;
    };
    if core.adopt(table).is_err() {
        return false;
    }
    let used: HappeningIn<A> = Happening::NewTable(copy);
    edge.write(&used);
    true
}

/// Reads inittab and puts its table in force, and returns whether it did.
fn use_table<A: Allocator + Copy, H: Host, L: Log>(
    alloc: A,
    core: &mut Core<A>,
    edge: &mut Edge<H, L>,
    strict: bool,
) -> bool
    ensures used { result ≡ true → MadeCallsLead L.state edge.old edge.new
        (IsReread strict) (TookFirstDueStep (Tracks core.old) step.Reread) (Tracks core.new) }
    ensures read { result ≡ false → (parts : PartsRead)
        × AddsStamped edge.old.told edge.new.told (ReadTables parts) edge.old.log }
    ensures core { result ≡ false → core.new ≡ core.old }
    ensures log { result ≡ false → edge.new.log ≡ edge.old.log }
    ensures grows { ExtendsLogFromCore core.old core.new (L.state edge.old.log)
        (L.state edge.new.log) }
    ensures settings { H.settings edge.new.host ≡ H.settings edge.old.host }
{
    let Ok(parts) = edge.read_tables(alloc) else {
        return false;
    };
    use_parts(alloc, core, edge, &parts, strict)
}

/// Reads inittab again. If that fails, or the table cannot be put in force, or a line is faulty and init is strict, the
/// table in force stays.
pub(crate) fn reread<A: Allocator + Copy, H: Host, L: Log>(
    alloc: A,
    core: &mut Core<A>,
    edge: &mut Edge<H, L>,
    strict: bool,
)
    ensures makes { MadeCallsLead L.state edge.old edge.new
        (IsReread strict) (TookFirstDueStep (Tracks core.old) step.Reread) (Tracks core.new) }
    ensures grows { ExtendsLogFromCore core.old core.new (L.state edge.old.log)
        (L.state edge.new.log) }
    ensures settings { H.settings edge.new.host ≡ H.settings edge.old.host }
{
    if use_table(alloc, core, edge, strict) {
        return;
    }
    let unread: Happening = Happening::NotRead;
    core.not_read();
    edge.write(&unread);
    edge.announce(&unread);
}

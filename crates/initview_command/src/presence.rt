//! The current state of a trace.

ghost use Rattle.std.specs.Prelude.{◌≡◌, ◌∷◌, ◌+◌, ◌-◌, ◌^◌, min, List, OnOk};
ghost use Rattle.initview_command.specs.Words.{Clock, Event, time_of, Viewed};
ghost use Rattle.initview_command.specs.Writers.{present};

use crate::growing::Writer;
use crate::showing::{Remarks, TraceOutcome};
use init_words::Memory;
use program_io::Reporter;
use std::alloc::Global;
use trace_events::{Happening, HappeningIn};
use trace_view::{ObservedTrace, TraceObserver, ViewEnd};

/// Passes the view a reading of the clock that is later by this number of seconds.
fn show_clock<S: TraceObserver<Global> + Drop>(
    text: &mut ObservedTrace<S>,
    seconds: u64,
) -> Result<(), Memory>
    ensures { OnOk result ((past : List Event) → Viewed text.old.viewing.viewing past
        → Viewed text.new.viewing.viewing
        (Clock (min (time_of past + seconds) (2 ^ 64 - 1)) ∷ past)) }
{
    let time = text.view().time();
    let happening: HappeningIn<Global> = Happening::Clock(time.saturating_add(seconds));
    let _lawful = text.show(&happening)?;
    Ok(())
}

/// Brings the view to the current state of the trace, by advancing its clock.
pub(crate) fn show_present<S: TraceObserver<Global> + Drop>(
    text: &mut ObservedTrace<S>,
    writer: Writer,
    stop: Option<ViewEnd>,
) -> Result<(), Memory>
    ensures { OnOk result ((past : List Event) → Viewed text.old.viewing.viewing past
        → Viewed text.new.viewing.viewing (present writer stop past)) }
{
    match (writer, stop) {
        (Writer::Init(seconds), None) => show_clock(text, seconds),
        _ => Ok(()),
    }
}

/// Adds a remark if the trace was read to its end and no init writes it any more.
pub(crate) fn tell_writer(shown: &TraceOutcome, remarks: &mut Remarks) {
    if let (Writer::Nobody, None) = (shown.writer, shown.stop) {
        let path = shown.path;
        writeln!(
            remarks,
            "initview: no init is writing {path}; this is its final state"
        );
    }
}

//! Carrying out a step of init.

ghost use Rattle.std.specs.Prelude.{◌≡◌, ◌≤◌, true, false};
ghost use Rattle.supervisor.specs.Words.{is_short, Step, CoreState, Grows, ExtendsLogFromCore, TookFirstDueStep, Tracks};
ghost use Rattle.supervisor.specs.Parts.{FitsAndRestsIf, AreAllSteps, IsStep, IsStepUnlessIdle, MadeCallsLead, AnnouncesStep, is_idle, is_listed, is_short_step};

use crate::STEP_LIMIT;
use crate::edges::Edge;
use crate::ordering::order;
use crate::reexecuting::reexec;
use crate::rereading::reread;
use host_calls::Host;
use level_core::Core;
use std::alloc::Allocator;
use trace_events::{Happening, Step};
use trace_log::Log;

fn is_idle(step: &Step) -> bool
    ensures { result ≡ is_idle step.now }
{
    matches!(step, Step::Idle)
}

/// Carries out a step that init only writes to the log and announces.
fn tell<H: Host, L: Log>(edge: &mut Edge<H, L>, happening: Happening)
    ensures makes { (core : CoreState) (made : Step) → AnnouncesStep made happening
        → MadeCallsLead L.state edge.old edge.new
        IsStep (TookFirstDueStep (Tracks core) made) (Tracks core) }
    ensures grows { is_short happening ≡ true
        → Grows (L.state edge.old.log) (L.state edge.new.log) }
    ensures settings { H.settings edge.new.host ≡ H.settings edge.old.host }
{
    edge.write(&happening);
    edge.announce(&happening);
}

/// Carries out a step that the core returned.
fn carry_out<A: Allocator + Copy, H: Host, L: Log>(
    alloc: A,
    core: &mut Core<A>,
    edge: &mut Edge<H, L>,
    step: &Step,
    strict: bool,
)
    requires { is_listed core.old.table step.now ≡ true }
    ensures makes { MadeCallsLead L.state edge.old edge.new
        (IsStepUnlessIdle strict (is_idle step.now)) (TookFirstDueStep (Tracks core.old) step.now)
        (Tracks core.new) }
    ensures grows { is_short_step step.now ≡ true
        → ExtendsLogFromCore core.old core.new (L.state edge.old.log) (L.state edge.new.log) }
    ensures settings { H.settings edge.new.host ≡ H.settings edge.old.host }
{
    match *step {
        Step::Enter(stage, grace) => tell(edge, Happening::Enter(stage, grace)),
        Step::Call(letter) => tell(edge, Happening::Call(letter)),
        Step::Power(kind) => tell(edge, Happening::Power(kind)),
        Step::Hold(id) => tell(edge, Happening::Hold(id)),
        Step::Settle(level) => tell(edge, Happening::Settle(level)),
        Step::Order(id, ask) => order(alloc, core, edge, id, &ask),
        Step::Reread => reread(alloc, core, edge, strict),
        Step::Reexec => reexec(alloc, core, edge),
        Step::Idle => {}
    }
}

/// Carries out the core's next step, and returns whether nothing was due.
fn take_step<A: Allocator + Copy, H: Host, L: Log>(
    alloc: A,
    core: &mut Core<A>,
    edge: &mut Edge<H, L>,
    strict: bool,
) -> bool
    ensures makes { MadeCallsLead L.state edge.old edge.new
        (IsStepUnlessIdle strict result) (Tracks core.old)
        (FitsAndRestsIf result (Tracks core.new)) }
    ensures grows { ExtendsLogFromCore core.old core.new (L.state edge.old.log)
        (L.state edge.new.log) }
    ensures settings { H.settings edge.new.host ≡ H.settings edge.old.host }
{
    let step = core.next();
    carry_out(alloc, core, edge, &step, strict);
    is_idle(&step)
}

/// Carries out init's steps until nothing is due or the limit of a turn is reached, and returns whether nothing is due.
pub(crate) fn take_steps<A: Allocator + Copy, H: Host, L: Log>(
    alloc: A,
    core: &mut Core<A>,
    edge: &mut Edge<H, L>,
    strict: bool,
) -> bool
    ensures makes { MadeCallsLead L.state edge.old edge.new
        (AreAllSteps strict result) (Tracks core.old) (FitsAndRestsIf result (Tracks core.new)) }
    ensures grows { ExtendsLogFromCore core.old core.new (L.state edge.old.log)
        (L.state edge.new.log) }
    ensures settings { H.settings edge.new.host ≡ H.settings edge.old.host }
{
    for made in 0..STEP_LIMIT {
        if take_step(alloc, core, edge, strict) {
            return true;
        }
    }
    false
}

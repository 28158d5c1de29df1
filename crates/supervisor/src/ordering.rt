//! Orders to the host: starts, looks and signals.

ghost use Rattle.std.specs.Prelude.{◌≡◌, true, is_some};
ghost use Rattle.supervisor.specs.Words.{entry_of, ExtendsLogFromCore, TookFirstDueStep, Tracks, order_for};
ghost use Rattle.trace_events.specs.declared.steps.Step.TheVariants as step;
ghost use Rattle.supervisor.specs.Parts.{IsStep, MadeCallsLead, is_listed};

use crate::answering::hear_reply;
use crate::edges::Edge;
use host_calls::Host;
use init_words::{Id, OrderKind, SignalKind};
use level_core::Core;
use std::alloc::Allocator;
use trace_events::Happening;
use trace_log::Log;

/// Returns the order that sends a signal.
fn order_for(sent: &SignalKind) -> OrderKind
    ensures { result ≡ order_for sent.now }
{
    match sent {
        SignalKind::Term => OrderKind::Term,
        SignalKind::Kill => OrderKind::Kill,
    }
}

fn start<A: Allocator + Copy, H: Host, L: Log>(
    alloc: A,
    core: &mut Core<A>,
    edge: &mut Edge<H, L>,
    id: Id,
)
    requires { is_some (entry_of id core.old.table) ≡ true }
    ensures makes { MadeCallsLead L.state edge.old edge.new
        IsStep (TookFirstDueStep (Tracks core.old) (step.Order id OrderKind.Start))
        (Tracks core.new) }
    ensures grows { ExtendsLogFromCore core.old core.new (L.state edge.old.log)
        (L.state edge.new.log) }
    ensures settings { H.settings edge.new.host ≡ H.settings edge.old.host }
{
    let Some(entry) = core.table().get(&id) else {
        unreachable!()
    };
    edge.note(Happening::Asked(id, OrderKind::Start));
    let reply = edge.start(alloc, id, entry.command());
    hear_reply(core, edge, id, &reply);
}

fn look<A: Allocator, H: Host, L: Log>(core: &mut Core<A>, edge: &mut Edge<H, L>, id: Id)
    ensures makes { MadeCallsLead L.state edge.old edge.new
        IsStep (TookFirstDueStep (Tracks core.old) (step.Order id OrderKind.Look))
        (Tracks core.new) }
    ensures grows { ExtendsLogFromCore core.old core.new (L.state edge.old.log)
        (L.state edge.new.log) }
    ensures settings { H.settings edge.new.host ≡ H.settings edge.old.host }
{
    edge.note(Happening::Asked(id, OrderKind::Look));
    let reply = edge.look(id);
    hear_reply(core, edge, id, &reply);
}

fn signal<A: Allocator, H: Host, L: Log>(
    core: &mut Core<A>,
    edge: &mut Edge<H, L>,
    id: Id,
    sent: SignalKind,
)
    ensures makes { MadeCallsLead L.state edge.old edge.new
        IsStep (TookFirstDueStep (Tracks core.old) (step.Order id (order_for sent)))
        (Tracks core.new) }
    ensures grows { ExtendsLogFromCore core.old core.new (L.state edge.old.log)
        (L.state edge.new.log) }
    ensures settings { H.settings edge.new.host ≡ H.settings edge.old.host }
{
    edge.note(Happening::Asked(id, order_for(&sent)));
    let reply = edge.signal(id, sent);
    hear_reply(core, edge, id, &reply);
}

/// Gives the host an order for the id, and handles its reply.
pub(crate) fn order<A: Allocator + Copy, H: Host, L: Log>(
    alloc: A,
    core: &mut Core<A>,
    edge: &mut Edge<H, L>,
    id: Id,
    ask: &OrderKind,
)
    requires { is_listed core.old.table (step.Order id ask.now) ≡ true }
    ensures makes { MadeCallsLead L.state edge.old edge.new
        IsStep (TookFirstDueStep (Tracks core.old) (step.Order id ask.now)) (Tracks core.new) }
    ensures grows { ExtendsLogFromCore core.old core.new (L.state edge.old.log)
        (L.state edge.new.log) }
    ensures settings { H.settings edge.new.host ≡ H.settings edge.old.host }
{
    match *ask {
        OrderKind::Start => start(alloc, core, edge, id),
        OrderKind::Look => look(core, edge, id),
        OrderKind::Term => signal(core, edge, id, SignalKind::Term),
        OrderKind::Kill => signal(core, edge, id, SignalKind::Kill),
    }
}

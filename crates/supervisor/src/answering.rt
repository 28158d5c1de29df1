//! Handles the answers of the host: writes their happenings to the log, and passes them to the core.

ghost use Rattle.std.specs.Prelude.{◌≡◌, ◌∷◌, true, List, Some};
ghost use Rattle.std.specs.Option.{option_and_then};
ghost use Rattle.supervisor.specs.Words.{Ended, Told, Event, record_by_id, last_birth, acted, answered, replied, Grows, ExtendsLogFromCore, Hears, Logs, Tracks};
ghost use Rattle.child_table.specs.State.{child_number};
ghost use Rattle.supervisor.specs.Parts.{is_end};

use crate::edges::Edge;
use host_calls::{Host, Reply};
use init_words::{Answer, ChildNumber, Id, Status};
use level_core::Core;
use std::alloc::Allocator;
use trace_events::Happening;
use trace_log::Log;

/// Writes the death and the reaping of a child that ended.
fn write_end<H: Host, L: Log>(
    edge: &mut Edge<H, L>,
    id: Id,
    number: Option<ChildNumber>,
    status: Status,
)
    ensures logs { (past : List Event) → number ≡ Some (last_birth id past)
        → Logs (L.state edge.old.log) (L.state edge.new.log) past (acted id (Ended status) past) }
    ensures told { edge.new.told ≡ edge.old.told }
    ensures grows { Grows (L.state edge.old.log) (L.state edge.new.log) }
    ensures settings { H.settings edge.new.host ≡ H.settings edge.old.host }
{
    let Some(number) = number else {
        return;
    };
    edge.note(Happening::Death(number));
    edge.note(Happening::Reaped(id, number, status));
}

/// Writes the happening that an answer for the id reports. If the child ended, `number` is its number.
fn write_act<H: Host, L: Log>(
    edge: &mut Edge<H, L>,
    id: Id,
    answer: Answer,
    number: Option<ChildNumber>,
)
    ensures logs { (past : List Event)
        → (is_end answer ≡ true → number ≡ Some (last_birth id past))
        → Logs (L.state edge.old.log) (L.state edge.new.log) past (acted id answer past) }
    ensures told { edge.new.told ≡ edge.old.told }
    ensures grows { Grows (L.state edge.old.log) (L.state edge.new.log) }
    ensures settings { H.settings edge.new.host ≡ H.settings edge.old.host }
{
    match answer {
        Answer::Born(born) => edge.note(Happening::Birth(id, born)),
        Answer::NotBorn => edge.note(Happening::NoBirth(id)),
        Answer::Ended(status) => write_end(edge, id, number, status),
        Answer::Alive => edge.note(Happening::Still(id)),
        Answer::NoLook => edge.note(Happening::NoLook(id)),
        Answer::Hit => edge.note(Happening::Hit(id)),
        Answer::Miss => edge.note(Happening::Miss(id)),
    }
}

/// Writes an answer: the happening that it reports, and a `told`.
fn write_answer<H: Host, L: Log>(
    edge: &mut Edge<H, L>,
    id: Id,
    answer: Answer,
    number: Option<ChildNumber>,
)
    ensures logs { (past : List Event)
        → (is_end answer ≡ true → number ≡ Some (last_birth id past))
        → Logs (L.state edge.old.log) (L.state edge.new.log) past (Told id ∷ acted id answer past) }
    ensures told { edge.new.told ≡ edge.old.told }
    ensures grows { Grows (L.state edge.old.log) (L.state edge.new.log) }
    ensures settings { H.settings edge.new.host ≡ H.settings edge.old.host }
{
    write_act(edge, id, answer, number);
    edge.note(Happening::Told(id));
}

/// Returns the number of the id's child, if it has one.
fn number_of<A: Allocator>(core: &Core<A>, id: Id) -> Option<ChildNumber>
    ensures { result ≡ option_and_then child_number (record_by_id id core.now.slots) }
{
    let slot = core.slots().by_id(&id)?;
    slot.child()
}

/// Returns the number of the id's child if the answer is that it ended.
fn number_for<A: Allocator>(core: &Core<A>, id: Id, answer: &Answer) -> Option<ChildNumber>
    ensures { is_end answer.now ≡ true
        → result ≡ option_and_then child_number (record_by_id id core.now.slots) }
{
    match answer {
        Answer::Ended(_) => number_of(core, id),
        _ => None,
    }
}

/// Passes an answer for the id to the core, and writes it to the log. Ignores an answer without an open order.
pub(crate) fn hear_answer<A: Allocator, H: Host, L: Log>(
    core: &mut Core<A>,
    edge: &mut Edge<H, L>,
    id: Id,
    answer: Answer,
)
    ensures hears { Hears (Tracks core.old) (Tracks core.new)
        (L.state edge.old.log) (L.state edge.new.log) (answered id answer) }
    ensures told { edge.new.told ≡ edge.old.told }
    ensures grows { ExtendsLogFromCore core.old core.new (L.state edge.old.log)
        (L.state edge.new.log) }
    ensures settings { H.settings edge.new.host ≡ H.settings edge.old.host }
{
    let number = number_for(core, id, &answer);
    let heard = answer;
    if core.answer(id, answer).is_ok() {
        write_answer(edge, id, heard, number);
    }
}

/// Handles the host's reply to an order for the id: an answer, or `Later`.
pub(crate) fn hear_reply<A: Allocator, H: Host, L: Log>(
    core: &mut Core<A>,
    edge: &mut Edge<H, L>,
    id: Id,
    reply: &Reply,
)
    ensures hears { Hears (Tracks core.old) (Tracks core.new)
        (L.state edge.old.log) (L.state edge.new.log) (replied id reply.now) }
    ensures told { edge.new.told ≡ edge.old.told }
    ensures grows { ExtendsLogFromCore core.old core.new (L.state edge.old.log)
        (L.state edge.new.log) }
    ensures settings { H.settings edge.new.host ≡ H.settings edge.old.host }
{
    match *reply {
        Reply::Now(answer) => hear_answer(core, edge, id, answer),
        Reply::Later => {}
    }
}

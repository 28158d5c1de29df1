//! The messages about the happenings of a trace that an operator sees.

ghost use Rattle.std.specs.Prelude.{◌≡◌, [], ◌∷◌, ◌++◌, List, OnOk};
ghost use Rattle.initview_lines.specs.CommonWords.{Event, Viewed};
ghost use Rattle.initview_lines.specs.Happenings.{happening_lines, news_of};

use crate::lines::Line;
use init_words::{ChildNumber, Id, Letter, Level, OrderKind, PowerKind, Stage, Status};
use initctl_frame::HeardRequest;
use std::alloc::{AllocError, Global};
use trace_events::{Handed, Happening, HappeningIn};
use trace_view::TraceView;

/// A message to an operator.
#[derive(Clone, Copy)]
pub enum News {
    /// An inittab with this number of entries is in force.
    Table(usize),
    NotRead,
    Entered(Stage),
    Settled(Level),
    Called(Letter),
    Power(PowerKind),
    Held(Id),
    Born(Id, ChildNumber),
    NotBorn(Id),
    Ended(Id, ChildNumber, Status),
    NotSeen(Id),
    /// A signal, as named by the open order, and the number of the child.
    Sent(Id, Option<OrderKind>, Option<ChildNumber>),
    NotSent(Id, Option<OrderKind>, Option<ChildNumber>),
    Got(HeardRequest),
    Handed(Handed),
}

/// Returns the message for a single happening, without its past. Returns `None` for one that an operator does not need
/// to see: an order, a death, a look that found its child alive, `told`, a reading of the clock, a round.
pub(crate) fn news_alone(happening: &HappeningIn<Global>) -> Option<News>
    ensures { result ≡ news_of happening.now [] }
{
    match happening {
        Happening::NewTable(table) => Some(News::Table(table.len())),
        Happening::NotRead => Some(News::NotRead),
        Happening::Enter(stage, _) => Some(News::Entered(*stage)),
        Happening::Settle(level) => Some(News::Settled(*level)),
        Happening::Call(letter) => Some(News::Called(*letter)),
        Happening::Power(kind) => Some(News::Power(*kind)),
        Happening::Hold(id) => Some(News::Held(*id)),
        Happening::Birth(id, number) => Some(News::Born(*id, *number)),
        Happening::NoBirth(id) => Some(News::NotBorn(*id)),
        Happening::Reaped(id, number, status) => Some(News::Ended(*id, *number, *status)),
        Happening::NoLook(id) => Some(News::NotSeen(*id)),
        Happening::Hit(id) => Some(News::Sent(*id, None, None)),
        Happening::Miss(id) => Some(News::NotSent(*id, None, None)),
        Happening::Got(request) => Some(News::Got(*request)),
        Happening::Handed(how) => Some(News::Handed(*how)),
        _ => None,
    }
}

/// Returns the message for the last happening that the view has seen, if it has one.
fn news_of(view: &TraceView, happening: &HappeningIn<Global>) -> Option<News>
    ensures { (past : List Event) → Viewed view.now (happening.now ∷ past)
        → result ≡ news_of happening.now past }
{
    match happening {
        Happening::Hit(id) => Some(News::Sent(*id, view.order(id), view.child(id))),
        Happening::Miss(id) => Some(News::NotSent(*id, view.order(id), view.child(id))),
        _ => news_alone(happening),
    }
}

/// Adds the message for the last happening that the view has seen, if any, with the time of the trace's clock.
pub fn add_happening(
    lines: &mut Vec<Line>,
    view: &TraceView,
    happening: &HappeningIn<Global>,
) -> Result<(), AllocError>
    ensures { OnOk result ((past : List Event) → Viewed view.now (happening.now ∷ past)
        → lines.new.items ≡ lines.old.items ++ happening_lines happening.now past) }
{
    if let Some(news) = news_of(view, happening) {
        lines.push(Line::Happened(view.time(), news))?;
    }
    Ok(())
}

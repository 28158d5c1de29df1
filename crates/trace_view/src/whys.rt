//! The reasons why an entry is not started next.

ghost use Rattle.std.specs.Prelude.{◌≡◌};
ghost use Rattle.trace_view.specs.Why.{by_awaited, elsewhere, is_past, not_here, not_wanted, why_by};

use crate::standings::{Excluded, Standing};
use crate::wishes::Wish;
use init_words::{Act, ChildNumber, Id, OrderKind, Stage};

/// The first reason why an entry is not started next.
#[derive(Clone, Copy)]
pub enum Why {
    /// The table in force has no such entry.
    NoEntry,
    /// Its action is never started.
    NeverStarts,
    /// No stage has begun.
    NoStage,
    /// The stage of the entry is over, and the entry ran in that stage.
    RanBefore,
    /// The stage of the entry is over, and the entry did not run in that stage.
    StageOver,
    /// The stage of the entry is still to come, and init waits for another entry, which has this id.
    StageOwed(Id),
    /// The entry does not name the level in force, or belongs to another stage, which may still come.
    OtherStage,
    /// The entry has this child, whose end init has not learned of.
    ChildKept(ChildNumber),
    /// It has an open order.
    OrderOpen(OrderKind),
    /// No letter or power event has called the entry since the last stage or table.
    NotCalled,
    /// The entry has been started since the stage began.
    WasStarted,
    /// Init waits for this earlier entry.
    EarlierOwed(Id),
    /// Init has not learned of the end of this excluded child.
    ExcludedKept(Excluded),
    /// Init carries out this request first.
    WishStands(Wish),
    /// The entry has been held since this time.
    Held(u64),
    /// The entry was started ten times in two minutes, so init holds it next.
    WindowFull,
    /// There is no reason: its start is due.
    Nothing,
}

/// Returns whether the action belongs to a stage that is over.
fn is_past(act: Act, booted: bool, stage: Stage) -> bool
    ensures { result ≡ is_past act booted stage }
{
    match (act, stage) {
        (_, Stage::Sysinit) => false,
        (Act::Sysinit, _) => true,
        (_, Stage::Boot) => false,
        (_, Stage::Run(_)) => booted && act.ignores_levels(),
    }
}

/// Returns the reason for an entry whose stage is still to come.
fn by_awaited(stage: Stage, awaited: Option<Id>) -> Why
    ensures { result ≡ by_awaited stage awaited }
{
    match (stage, awaited) {
        (Stage::Run(_), _) => Why::OtherStage,
        (_, Some(id)) => Why::StageOwed(id),
        (_, None) => Why::OtherStage,
    }
}

/// Returns the reason for an entry of another stage.
fn elsewhere(act: Act, stage: Stage, standing: &Standing) -> Why
    ensures { result ≡ elsewhere act stage standing.now }
{
    if !is_past(act, standing.booted, stage) {
        return by_awaited(stage, standing.awaited);
    }
    if standing.ran {
        Why::RanBefore
    } else {
        Why::StageOver
    }
}

/// Returns the reason for an entry that does not start in the stage in force.
fn not_here(act: Act, stage: Option<Stage>, standing: &Standing) -> Why
    ensures { result ≡ not_here act stage standing.now }
{
    let Some(stage) = stage else {
        return Why::NoStage;
    };
    if !act.is_wanted(true, true, true) {
        return Why::NeverStarts;
    }
    match standing.child {
        Some(child) if !standing.stops => Why::ChildKept(child),
        _ => elsewhere(act, stage, standing),
    }
}

/// Returns the reason for an entry that is not wanted and has neither a child nor an open order.
fn not_wanted(act: Act, named: bool) -> Why
    ensures { result ≡ not_wanted act named }
{
    if act.is_wanted(true, true, false) || named {
        Why::WasStarted
    } else {
        Why::NotCalled
    }
}

/// Returns the first reason against starting an entry with this action and in this state.
pub fn why_by(act: Act, stage: Option<Stage>, standing: &Standing) -> Why
    ensures { result ≡ why_by act stage standing.now }
{
    if !standing.starts {
        return not_here(act, stage, standing);
    }
    if let Some(child) = standing.child {
        return Why::ChildKept(child);
    }
    if let Some(ask) = standing.order {
        return Why::OrderOpen(ask);
    }
    if !standing.wanted {
        return not_wanted(act, standing.named);
    }
    if let Some(earlier) = standing.owed {
        return Why::EarlierOwed(earlier);
    }
    if let Some(child) = standing.excluded {
        return Why::ExcludedKept(child);
    }
    if let Some(wish) = standing.wish {
        return Why::WishStands(wish);
    }
    if let Some(since) = standing.hold {
        return Why::Held(since);
    }
    if standing.full {
        Why::WindowFull
    } else {
        Why::Nothing
    }
}

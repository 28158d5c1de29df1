//! Decides what is due for a single record: a signal, a start, a look, and whether it delays other entries.

ghost use Rattle.std.specs.Prelude.{◌≡◌, ◌≤◌, ◌+◌, nat_le};
ghost use Rattle.level_core.specs.Words.{level_step, signal_step, stop_step, is_wanted_record, is_owed_record, limited_step, can_start_record, start_step, is_done_record, next_stage, is_served_record, can_look_record, CLOCK_LIMIT};
ghost use Rattle.trace_events.specs.Wanted.{is_order};
ghost use Rattle.level_core.specs.Places.{is_seen_record, is_held_back, is_passed_record, changes_starts};
ghost use Rattle.init_words.specs.Orders.{same_ask};
ghost use Rattle.level_core.specs.Signals.{is_past};

use child_table::{Slot, Stop};
use init_words::{Answer, Entry, Id, Level, OrderKind, Stage, starts, waited};
use respawn_limit::May;
use trace_events::{Goal, Step};

/// Returns the step that enters the requested level, or Boot if the level is not S and Boot was never entered.
pub(crate) fn level_step(booted: bool, wish: Option<Goal>) -> Option<Step>
    ensures { result ≡ level_step booted wish }
{
    let wish = wish?;
    let stage = if wish.level != Level::S && !booted {
        Stage::Boot
    } else {
        Stage::Run(wish.level)
    };
    Some(Step::Enter(stage, wish.grace))
}

/// Returns whether the grace period has passed since the time.
fn is_over(time: u64, grace: u16, now: u64) -> bool
    ensures { result ≡ nat_le (time + grace) now }
{
    time <= now && now - time >= u64::from(grace)
}

/// Returns whether there is a time and the grace period has passed since it.
pub(crate) fn is_past(time: Option<u64>, grace: u16, now: u64) -> bool
    ensures { result ≡ is_past grace now time }
{
    match time {
        Some(time) => is_over(time, grace, now),
        None => false,
    }
}

fn signal_step(grace: u16, now: u64, id: Id, stop: Option<Stop>) -> Option<Step>
    ensures { result ≡ signal_step grace now id stop }
{
    match stop? {
        Stop::Due => Some(Step::Order(id, OrderKind::Term)),
        Stop::Termed(time) => {
            if is_over(time, grace, now) {
                Some(Step::Order(id, OrderKind::Kill))
            } else {
                None
            }
        }
        Stop::Killed(_) => None,
    }
}

/// Returns the signal that is due to the child of a record.
pub(crate) fn stop_step(grace: u16, now: u64, slot: &Slot) -> Option<Step>
    ensures { result ≡ stop_step grace now slot.now }
{
    if slot.has_child() && slot.order().is_none() && !slot.missed() {
        signal_step(grace, now, slot.id(), slot.stop())
    } else {
        None
    }
}

/// Returns whether a start of the entry is open.
pub(crate) fn is_starting(slot: &Slot) -> bool
    ensures { result ≡ is_order OrderKind.Start slot.now.order }
{
    matches!(slot.order(), Some(OrderKind::Start))
}

fn is_wanted(stage: Stage, entry: &Entry, slot: &Slot) -> bool
    ensures { result ≡ is_wanted_record stage entry.now slot.now }
{
    let idle = !slot.has_child() && !is_starting(slot);
    starts(entry, stage) && entry.act.is_wanted(idle, !slot.asked(), slot.called())
}

/// Returns whether the entry is owed: init waits for it, and it is wanted, being started, or running.
pub(crate) fn is_owed(stage: Stage, entry: &Entry, slot: &Slot) -> bool
    ensures { result ≡ is_owed_record stage entry.now slot.now }
{
    waited(entry) && (slot.has_child() || is_starting(slot) || is_wanted(stage, entry, slot))
}

fn limited_step(now: u64, entry: &Entry, slot: &Slot) -> Option<Step>
    requires { now ≤ CLOCK_LIMIT }
    ensures { result ≡ limited_step now entry.now slot.now }
{
    if !entry.act.is_limited() {
        return Some(Step::Order(entry.id, OrderKind::Start));
    }
    if slot.held(now) {
        return None;
    }
    match slot.may(now) {
        May::Yes => Some(Step::Order(entry.id, OrderKind::Start)),
        May::HoldUntil(_) => Some(Step::Hold(entry.id)),
    }
}

fn can_start(stage: Stage, entry: &Entry, slot: &Slot) -> bool
    ensures { result ≡ can_start_record stage entry.now slot.now }
{
    is_wanted(stage, entry, slot) && !slot.has_child() && slot.order().is_none()
}

/// Returns the step that starts or holds an entry, if one is due.
pub(crate) fn start_step(stage: Stage, now: u64, entry: &Entry, slot: &Slot) -> Option<Step>
    requires { now ≤ CLOCK_LIMIT }
    ensures { result ≡ start_step stage now entry.now slot.now }
{
    if can_start(stage, entry, slot) {
        limited_step(now, entry, slot)
    } else {
        None
    }
}

/// Returns whether the order is a start.
pub(crate) fn is_start(ask: OrderKind) -> bool
    ensures { result ≡ same_ask OrderKind.Start ask }
{
    matches!(ask, OrderKind::Start)
}

/// Returns whether the answer may change which entry to start next.
pub(crate) fn changes_starts(answer: &Answer) -> bool
    ensures { result ≡ changes_starts answer.now }
{
    matches!(answer, Answer::Born(_) | Answer::NotBorn | Answer::Ended(_))
}

/// Returns whether the entry is held now.
fn is_held_back(now: u64, entry: &Entry, slot: &Slot) -> bool
    ensures { result ≡ is_held_back now entry.now slot.now }
{
    entry.act.is_limited() && slot.held(now)
}

/// Returns whether the entry need not be started now, regardless of any open order, and is not owed.
pub(crate) fn is_passed(stage: Stage, now: u64, entry: &Entry, slot: &Slot) -> bool
    ensures { result ≡ is_passed_record stage now entry.now slot.now }
{
    let open = is_wanted(stage, entry, slot) && !slot.has_child();
    !(open && !is_held_back(now, entry, slot)) && !is_owed(stage, entry, slot)
}

/// Returns whether nothing is left to do for the entry in Sysinit or Boot.
pub(crate) fn is_done(stage: Stage, entry: &Entry, slot: &Slot) -> bool
    ensures { result ≡ is_done_record stage entry.now slot.now }
{
    !is_wanted(stage, entry, slot) && !(waited(entry) && slot.has_child())
}

/// Returns the stage that follows Sysinit or Boot on the way to the level.
pub(crate) fn next_stage(stage: Stage, goal: Level) -> Option<Stage>
    ensures { result ≡ next_stage stage goal }
{
    match stage {
        Stage::Sysinit if goal == Level::S => Some(Stage::Run(Level::S)),
        Stage::Sysinit => Some(Stage::Boot),
        Stage::Boot => Some(Stage::Run(goal)),
        Stage::Run(_) => None,
    }
}

/// Returns whether the entry does not keep the level from being settled.
pub(crate) fn is_served(level: Level, now: u64, entry: &Entry, slot: &Slot) -> bool
    ensures { result ≡ is_served_record level now entry.now slot.now }
{
    if is_owed(Stage::Run(level), entry, slot) {
        return false;
    }
    let kept_up = slot.has_child() || slot.held(now);
    !entry.names_level(level) || entry.act.is_served(slot.asked(), kept_up)
}

/// Returns whether a look at the child is due and no order is open.
pub(crate) fn can_look(slot: &Slot) -> bool
    ensures { result ≡ can_look_record slot.now }
{
    slot.has_child() && slot.order().is_none() && slot.look()
}

/// Returns whether no look at the child of the record is due, regardless of any open order.
pub(crate) fn is_seen(slot: &Slot) -> bool
    ensures { result ≡ is_seen_record slot.now }
{
    !(slot.has_child() && slot.look())
}

//! Tests whether a state obeys the rules that the state of init always obeys.

ghost use Rattle.std.specs.Prelude.{◌≡◌, ◌≤◌, ◌&&◌, if◌then◌else◌, not, true, nat_le, Some};
ghost use Rattle.std.specs.List.{list_all, list_any};
ghost use Rattle.std.specs.List.Sorted.{IsNonDecreasing};
ghost use Rattle.level_core.specs.Words.{CLOCK_LIMIT, are_distinct, is_stop_timely, is_timely, are_timely, has_excluded, has_cause, may_follow, is_order_allowed, is_started, is_start_allowed, are_starts_in, is_child_excluded, is_stop_judged, is_callable, may_be_signalled, are_marks_consistent, is_hold_of, is_limiter_consistent, is_level_wish_valid, is_goal_reached, is_birth_known, do_fields_obey, does_record_obey, do_records_obey, is_kept};
ghost use Rattle.core_model.specs.Rules as rules;

use crate::deciding::{is_owed, is_starting};
use child_table::{Slot, Stop, is_excluded};
use core_model::CoreFields;
use init_words::{Act, Entry, OrderKind, PowerKind, Stage, starts};
use inittab_text::Table;
use respawn_limit::{CLOCK_LIMIT, HOLD, STARTS};
use std::alloc::Allocator;
use trace_events::{Goal, in_run};

/// Returns whether the times do not decrease.
pub(crate) fn is_non_decreasing(times: &[u64]) -> bool
    ensures value { result ≡ rules.is_non_decreasing times.now }
    ensures ordered { result ≡ true → IsNonDecreasing times.now }
{
    times.is_sorted()
}

/// Returns whether the record belongs to an entry, or has a child.
fn has_cause(slot: &Slot) -> bool
    ensures { result ≡ has_cause slot.now }
{
    slot.table_act().is_some() || slot.has_child()
}

/// Returns whether the signal may be open at this point of stopping the child.
fn may_follow(signal: OrderKind, stop: Option<Stop>) -> bool
    ensures { result ≡ may_follow signal stop }
{
    match stop {
        Some(Stop::Due) => signal == OrderKind::Term,
        Some(Stop::Termed(_)) => signal == OrderKind::Kill,
        Some(Stop::Killed(_)) | None => false,
    }
}

/// Returns whether the record allows its open order.
fn is_order_allowed(slot: &Slot) -> bool
    ensures { result ≡ is_order_allowed slot.now }
{
    match slot.order() {
        None => true,
        Some(OrderKind::Start) => slot.table_act().is_some() && !slot.has_child(),
        Some(OrderKind::Look) => slot.has_child(),
        Some(signal) => slot.has_child() && may_follow(signal, slot.stop()),
    }
}

/// Returns whether a start is open.
fn has_start(slots: &[Slot]) -> bool
    ensures { result ≡ list_any is_started slots.now }
{
    slots.iter().any(|slot| is_starting(slot))
}

/// Returns whether some child must be stopped.
fn has_excluded(slots: &[Slot]) -> bool
    ensures { result ≡ has_excluded slots.now }
{
    slots.iter().any(|slot| slot.stop().is_some())
}

/// Returns whether an open start, if there is one, has set `asked` and is for an entry that starts in the stage.
fn is_start_allowed(stage: Stage, entry: &Entry, slot: &Slot) -> bool
    ensures { result ≡ is_start_allowed stage entry.now slot.now }
{
    !is_starting(slot) || (slot.asked() && starts(entry, stage))
}

/// Returns whether the entry has no open start if it follows an owed entry, and only an allowed one otherwise.
fn is_start_in_turn(owed: bool, stage: Stage, entry: &Entry, slot: &Slot) -> bool
    ensures { result ≡ (if owed then not (is_started slot.now)
        else is_start_allowed stage entry.now slot.now) }
{
    if owed {
        !is_starting(slot)
    } else {
        is_start_allowed(stage, entry, slot)
    }
}

/// Returns whether each open start is allowed, and none is for an entry that follows an owed one.
fn are_starts_along<A: Allocator>(stage: Stage, table: &Table<A>, slots: &[Slot]) -> bool
    ensures { result ≡ are_starts_in (Some stage) table.now slots.now }
{
    let mut owed = false;
    for (position, slot) in slots.iter().enumerate() {
        let Some(entry) = table.at(position) else {
            return true;
        };
        if !is_start_in_turn(owed, stage, entry, slot) {
            return false;
        }
        owed |= is_owed(stage, entry, slot);
    }
    true
}

fn are_starts_in<A: Allocator>(stage: Option<Stage>, table: &Table<A>, slots: &[Slot]) -> bool
    ensures { result ≡ are_starts_in stage table.now slots.now }
{
    match stage {
        None => !has_start(slots),
        Some(stage) => are_starts_along(stage, table, slots),
    }
}

/// Returns whether the child of a record is excluded. Before the first stage, every child is.
fn is_child_excluded<A: Allocator>(stage: Option<Stage>, table: &Table<A>, slot: &Slot) -> bool
    ensures { result ≡ is_child_excluded stage table.now slot.now slot.now.child }
{
    if !slot.has_child() {
        return false;
    }
    match stage {
        None => true,
        Some(stage) => is_excluded(slot.act(), table.get(&slot.id()), stage),
    }
}

/// Returns whether the record marks its child for stopping exactly if the child is excluded.
fn is_stop_judged<A: Allocator>(stage: Option<Stage>, table: &Table<A>, slot: &Slot) -> bool
    ensures { result ≡ is_stop_judged stage table.now slot.now }
{
    if is_child_excluded(stage, table, slot) {
        slot.stop().is_some()
    } else {
        slot.stop().is_none()
    }
}

/// Returns whether a power event or a letter can call an entry with this action.
fn is_callable(act: Option<Act>) -> bool
    ensures { result ≡ is_callable act }
{
    let Some(act) = act else {
        return false;
    };
    act.is_called_by(PowerKind::Fail)
        || act.is_called_by(PowerKind::FailNow)
        || act.is_called_by(PowerKind::Ok)
        || act.is_ondemand()
}

/// Returns whether init may still send the child a signal, given the progress of stopping it.
fn may_be_signalled(stop: Option<Stop>) -> bool
    ensures { result ≡ may_be_signalled stop }
{
    matches!(stop, Some(Stop::Due | Stop::Termed(_)))
}

/// Returns whether the flags of a record are justified: `look` needs a child, `missed` needs a child that may still be
/// sent a signal, and `called` needs an entry that can be called.
fn are_marks_consistent(slot: &Slot) -> bool
    ensures { result ≡ are_marks_consistent slot.now }
{
    (!slot.look() || slot.has_child())
        && (!slot.missed() || may_be_signalled(slot.stop()))
        && (!slot.called() || is_callable(slot.table_act()))
}

/// Returns whether there is no hold, or it ends at most five minutes from now and there are ten starts.
fn is_hold_kept(now: u64, starts: &[u64], held_until: Option<u64>) -> bool
    requires { now ≤ CLOCK_LIMIT }
    ensures { result
        ≡ is_hold_of now (record { starts = starts.now; held = held_until }) held_until }
{
    match held_until {
        None => true,
        Some(end) => starts.len() == STARTS && end <= now + HOLD,
    }
}

/// Returns whether the starts and the hold obey the rules; there are none if the respawn limit does not apply.
fn is_limiter_consistent(now: u64, slot: &Slot) -> bool
    requires { now ≤ CLOCK_LIMIT }
    ensures { result ≡ is_limiter_consistent now slot.now }
{
    let starts = slot.starts();
    let held_until = slot.held_until();
    if slot.is_limited() {
        is_hold_kept(now, starts, held_until)
    } else {
        starts.is_empty() && held_until.is_none()
    }
}

/// Returns whether none of the times is later than now.
fn are_past(now: u64, times: &[u64]) -> bool
    ensures { result ≡ list_all (λ time. nat_le time now) times.now }
{
    times.iter().all(|time| *time <= now)
}

/// Returns whether the last signal, if there was one, was sent no later than now.
fn is_stop_timely(now: u64, stop: Option<Stop>) -> bool
    ensures { result ≡ is_stop_timely now stop }
{
    match stop {
        Some(Stop::Termed(time) | Stop::Killed(time)) => time <= now,
        Some(Stop::Due) | None => true,
    }
}

/// Returns whether no start and no signal in the record is later than now.
fn is_timely(now: u64, slot: &Slot) -> bool
    ensures { result ≡ is_timely now slot.now }
{
    are_past(now, slot.starts()) && is_stop_timely(now, slot.stop())
}

/// Returns whether the record, if it has a child, has the action with which the child was born.
fn is_birth_known(slot: &Slot) -> bool
    ensures { result ≡ is_birth_known slot.now.child }
{
    slot.child().is_none() || slot.act().is_some()
}

/// Returns whether the record obeys the rules for single records.
fn does_record_obey<A: Allocator>(
    stage: Option<Stage>,
    table: &Table<A>,
    now: u64,
    slot: &Slot,
) -> bool
    requires { now ≤ CLOCK_LIMIT }
    ensures { result ≡ does_record_obey stage table.now now slot.now }
{
    has_cause(slot)
        && is_birth_known(slot)
        && is_order_allowed(slot)
        && is_stop_judged(stage, table, slot)
        && are_marks_consistent(slot)
        && is_limiter_consistent(now, slot)
        && is_timely(now, slot)
}

fn is_each_kept<A: Allocator>(
    stage: Option<Stage>,
    table: &Table<A>,
    now: u64,
    slots: &[Slot],
) -> bool
    requires { now ≤ CLOCK_LIMIT }
    ensures { result ≡ list_all (does_record_obey stage table.now now) slots.now }
{
    slots
        .iter()
        .all(|slot| does_record_obey(stage, table, now, slot))
}

/// Returns whether the records obey the rules with this stage, table and time, provided that no id has two.
fn do_records_obey<A: Allocator>(
    stage: Option<Stage>,
    table: &Table<A>,
    now: u64,
    slots: &[Slot],
) -> bool
    requires { now ≤ CLOCK_LIMIT }
    ensures kept { do_records_obey stage table.now now slots.now
        ≡ (are_distinct slots.now && result) }
    ensures timely { result ≡ true → are_timely now slots.now ≡ true }
{
    are_starts_in(stage, table, slots)
        && (!has_start(slots) || !has_excluded(slots))
        && is_each_kept(stage, table, now, slots)
}

/// Returns whether the pending request for a level, if there is one, came in a runlevel and is for a different level.
fn is_level_wish_valid(stage: Option<Stage>, wish: Option<Goal>) -> bool
    ensures { result ≡ is_level_wish_valid stage wish }
{
    let Some(wish) = wish else {
        return true;
    };
    match stage {
        Some(Stage::Run(level)) => wish.level != level,
        Some(Stage::Sysinit | Stage::Boot) | None => false,
    }
}

/// Returns whether the goal and `booted` are right for the stage: in a runlevel, the goal is that level; in Boot,
/// `booted` is set, and before Boot it is not.
fn is_goal_reached(stage: Option<Stage>, goal: Goal, booted: bool) -> bool
    ensures { result ≡ is_goal_reached stage goal booted }
{
    match stage {
        Some(Stage::Run(level)) => goal.level == level,
        Some(Stage::Boot) => booted,
        Some(Stage::Sysinit) | None => !booted,
    }
}

fn do_fields_obey(fields: &CoreFields) -> bool
    ensures { result ≡ do_fields_obey fields.now }
{
    fields.time <= CLOCK_LIMIT
        && is_level_wish_valid(fields.stage, fields.level_wish)
        && (!fields.announced || in_run(fields.stage))
        && is_goal_reached(fields.stage, fields.goal, fields.booted)
}

/// Returns whether the state obeys the rules, except for record order, provided that no id has two records.
pub(crate) fn is_kept<A: Allocator>(fields: &CoreFields, table: &Table<A>, slots: &[Slot]) -> bool
    ensures kept { is_kept fields.now table.now slots.now ≡ (are_distinct slots.now && result) }
    ensures timely { result ≡ true → are_timely CLOCK_LIMIT slots.now ≡ true }
{
    do_fields_obey(fields) && do_records_obey(fields.stage, table, fields.time, slots)
}

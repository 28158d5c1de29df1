//! Searches all records for the first step that is due, in record order.

ghost use Rattle.std.specs.Prelude.{◌≡◌, ◌≢◌, ◌≤◌, ◌<◌, ◌+◌, ℕ, true, false, None, Some, IfSome, drop, zip};
ghost use Rattle.std.specs.List.{list_any};
ghost use Rattle.level_core.specs.Words.{stop_among, start_along, start_among, all_done, all_served, look_among, is_busy_record, CLOCK_LIMIT};
ghost use Rattle.level_core.specs.Places.{are_seen, is_passed_at, no_signal_due_at, ArePassed, ArePassedFrom, NoSignalDueBefore};

use crate::deciding::{
    can_look, is_done, is_owed, is_passed, is_seen, is_served, start_step, stop_step,
};
use crate::walk_places::Places;
use child_table::Slot;
use init_words::{Level, OrderKind, Stage};
use inittab_text::Table;
use std::alloc::Allocator;
use trace_events::Step;

/// Returns a position before which no signal is due now, given that none is due before `from`.
pub(crate) fn unsignalled_to(grace: u16, now: u64, slots: &[Slot], from: usize) -> usize
    requires { NoSignalDueBefore grace now from slots.now }
    ensures { NoSignalDueBefore grace now result slots.now }
{
    let mut to = from;
    for position in from..slots.len() {
        if stop_step(grace, now, &slots[position]).is_some() {
            return to;
        }
        to = position + 1;
    }
    to
}

/// Returns a position before which no signal is due, given that none is due before `to`, except for the record at
/// `position`.
pub(crate) fn unsignalled_with(
    grace: u16,
    now: u64,
    slots: &[Slot],
    to: usize,
    position: usize,
) -> usize
    requires { (i : ℕ) → i < to → i ≢ position
        → no_signal_due_at grace now slots.now i ≡ true }
    ensures { NoSignalDueBefore grace now result slots.now }
{
    let Some(slot) = slots.get(position) else {
        return to;
    };
    if stop_step(grace, now, slot).is_some() {
        to.min(position)
    } else {
        to
    }
}

/// Returns the first signal that is due, in record order. None is due before `from`.
pub(crate) fn stop_among(grace: u16, now: u64, slots: &[Slot], from: usize) -> Option<Step>
    requires { NoSignalDueBefore grace now from slots.now }
    ensures { result ≡ stop_among grace now slots.now }
{
    for position in from..slots.len() {
        if let Some(step) = stop_step(grace, now, &slots[position]) {
            return Some(step);
        }
    }
    None
}

/// Returns whether the entry at the position is passed, or does not exist.
fn is_passed_at<A: Allocator>(
    stage: Stage,
    now: u64,
    table: &Table<A>,
    slots: &[Slot],
    position: usize,
) -> bool
    ensures { result ≡ is_passed_at (Some stage) now (zip table.now slots.now) position }
{
    let Some(entry) = table.at(position) else {
        return true;
    };
    if position >= slots.len() {
        return true;
    }
    is_passed(stage, now, entry, &slots[position])
}

/// Returns a position such that all entries from `from` up to it are passed.
fn passed_to<A: Allocator>(
    stage: Stage,
    now: u64,
    table: &Table<A>,
    slots: &[Slot],
    from: usize,
) -> usize
    ensures behind { from ≤ result }
    ensures passed { ArePassedFrom (Some stage) now (zip table.now slots.now) from result }
{
    for position in from..slots.len() {
        if !is_passed_at(stage, now, table, slots, position) {
            return position;
        }
    }
    slots.len().max(from)
}

/// Advances the places past all entries that are passed now.
pub(crate) fn advanced_places<A: Allocator>(
    places: Places,
    stage: Stage,
    now: u64,
    table: &Table<A>,
    slots: &[Slot],
) -> Places
    requires { ArePassed (Some stage) now places table.now slots.now }
    ensures { ArePassed (Some stage) now result table.now slots.now }
{
    let next = passed_to(stage, now, table, slots, places.next);
    if places.first < places.next && !is_passed_at(stage, now, table, slots, places.first) {
        Places {
            first: places.first,
            next,
        }
    } else {
        Places { first: next, next }
    }
}

/// Returns the result of the search for a start or a hold at a position, or `None` if the search continues.
fn start_at<A: Allocator>(
    stage: Stage,
    now: u64,
    table: &Table<A>,
    slots: &[Slot],
    position: usize,
) -> Option<Option<Step>>
    requires { now ≤ CLOCK_LIMIT }
    ensures ends { IfSome result (λ found.
        found ≡ start_along stage now (drop position (zip table.now slots.now))) }
    ensures goes_on { result ≡ None
        → start_along stage now (drop position (zip table.now slots.now))
        ≡ start_along stage now (drop (position + 1) (zip table.now slots.now)) }
{
    let Some(entry) = table.at(position) else {
        return Some(None);
    };
    if position >= slots.len() {
        return Some(None);
    }
    let slot = &slots[position];
    if let Some(step) = start_step(stage, now, entry, slot) {
        return Some(Some(step));
    }
    if is_owed(stage, entry, slot) {
        return Some(None);
    }
    None
}

/// Returns the first start or hold from a position on, up to and including the first entry that init waits for.
fn start_from<A: Allocator>(
    stage: Stage,
    now: u64,
    table: &Table<A>,
    slots: &[Slot],
    from: usize,
) -> Option<Step>
    requires { now ≤ CLOCK_LIMIT }
    ensures { result ≡ start_along stage now (drop from (zip table.now slots.now)) }
{
    for position in from..slots.len() {
        if let Some(found) = start_at(stage, now, table, slots, position) {
            return found;
        }
    }
    None
}

/// Returns the first start or hold in table order, up to and including the first entry that init waits for.
pub(crate) fn start_among<A: Allocator>(
    stage: Stage,
    now: u64,
    table: &Table<A>,
    slots: &[Slot],
    places: Places,
) -> Option<Step>
    requires limit { now ≤ CLOCK_LIMIT }
    requires passed { ArePassed (Some stage) now places table.now slots.now }
    ensures { result ≡ start_among stage now table.now slots.now }
{
    if places.first >= places.next {
        return start_from(stage, now, table, slots, places.next);
    }
    match start_at(stage, now, table, slots, places.first) {
        Some(found) => found,
        None => start_from(stage, now, table, slots, places.next),
    }
}

/// Returns whether nothing is left to do in the stage.
pub(crate) fn all_done<A: Allocator>(stage: Stage, table: &Table<A>, slots: &[Slot]) -> bool
    ensures { result ≡ all_done stage table.now slots.now }
{
    table
        .entries()
        .iter()
        .zip(slots)
        .all(|(entry, slot)| is_done(stage, entry, slot))
}

/// Returns whether the entry at the position exists and keeps the level from being settled.
fn is_unserved_at<A: Allocator>(
    level: Level,
    now: u64,
    table: &Table<A>,
    slots: &[Slot],
    position: usize,
) -> bool
    ensures { result ≡ true → all_served level now table.now slots.now ≡ false }
{
    let Some(entry) = table.at(position) else {
        return false;
    };
    if position >= slots.len() {
        return false;
    }
    !is_served(level, now, entry, &slots[position])
}

/// Returns whether no entry keeps the level from being settled. Tests the entry at the position first, because it
/// may be one that does.
pub(crate) fn all_served<A: Allocator>(
    level: Level,
    now: u64,
    table: &Table<A>,
    slots: &[Slot],
    position: usize,
) -> bool
    ensures { result ≡ all_served level now table.now slots.now }
{
    if is_unserved_at(level, now, table, slots, position) {
        return false;
    }
    table
        .entries()
        .iter()
        .zip(slots)
        .all(|(entry, slot)| is_served(level, now, entry, slot))
}

/// Returns a position before which no look is due, given that none is due before `from`.
pub(crate) fn seen_until(slots: &[Slot], from: usize) -> usize
    requires { are_seen from slots.now ≡ true }
    ensures { are_seen result slots.now ≡ true }
{
    let mut seen = from;
    for position in from..slots.len() {
        if !is_seen(&slots[position]) {
            return seen;
        }
        seen = position + 1;
    }
    seen
}

/// Returns the first look that is due, in record order. No look is due before `from`.
pub(crate) fn look_among(slots: &[Slot], from: usize) -> Option<Step>
    requires { are_seen from slots.now ≡ true }
    ensures { result ≡ look_among slots.now }
{
    for position in from..slots.len() {
        let slot = &slots[position];
        if can_look(slot) {
            return Some(Step::Order(slot.id(), OrderKind::Look));
        }
    }
    None
}

/// Returns whether some record has a child or an order, or is held.
pub(crate) fn any_busy(now: u64, slots: &[Slot]) -> bool
    ensures { result ≡ list_any (is_busy_record now) slots.now }
{
    slots.iter().any(|slot| slot.has_child() || slot.order().is_some() || slot.held(now))
}

//! How a happening changes each part of the checker's state.

ghost use Rattle.std.specs.Prelude.{◌≡◌, ℕ, not, ◌&&◌, ◌||◌, List, is_some, ◌<◌, ◌≤◌, length, OnOk, OnErr};
ghost use Rattle.trace_check.specs.Words.{spare, has_id, is_order, starts_in};
ghost use Rattle.indexmap.specs.IndexSet.{spare as set_spare};
ghost use Rattle.std.specs.List.{list_any};
ghost use Rattle.trace_check.specs.State.{at, among};
ghost use Rattle.trace_check.specs.After.{stage_after, grace_after, time_after, order_after, kept_after, is_changed, asked_after, is_named, is_named_at, stays_called_in, called_after, sent_after};

use crate::children::UnreapedChild;
use crate::maps::{ById, Ids, add, add_if, drop_if, forget_ids, put, room_for, set_if};
use crate::tables::{act, entry_at, is_changed, starts_in};
use init_words::{Entry, Id, Mark, Memory, OrderKind, Stage, names};
use inittab_text::Table;
use respawn_limit::CLOCK_LIMIT;
use std::alloc::Allocator;
use trace_events::{Happening, HappeningIn};

pub(crate) fn stage_after<B: Allocator>(
    happening: &HappeningIn<B>,
    stage: Option<Stage>,
) -> Option<Stage>
    ensures { result ≡ stage_after happening.now stage }
{
    match happening {
        Happening::Enter(next, _) => Some(*next),
        _ => stage,
    }
}

pub(crate) fn grace_after<B: Allocator>(happening: &HappeningIn<B>, grace: u16) -> u16
    ensures { result ≡ grace_after happening.now grace }
{
    match happening {
        Happening::Enter(_, next) => *next,
        _ => grace,
    }
}

pub(crate) fn time_after<B: Allocator>(happening: &HappeningIn<B>, time: u64) -> u64
    ensures { result ≡ time_after happening.now time }
{
    match happening {
        Happening::Clock(reading) => (*reading).min(CLOCK_LIMIT).max(time),
        _ => time,
    }
}

/// Updates the open orders for a happening. The map must have room for one more.
pub(crate) fn take_order<A: Allocator, B: Allocator>(
    orders: &mut ById<OrderKind, A>,
    happening: &HappeningIn<B>,
)
    requires { 0 < spare orders.old }
    ensures { (id : List ℕ)
        → at id orders.new.entries ≡ order_after happening.now id (at id orders.old.entries) }
{
    match happening {
        Happening::Asked(id, ask) => put(orders, *id, *ask),
        Happening::Told(id) => {
            orders.swap_remove(id);
        }
        _ => {}
    }
}

/// Updates the ids that have a kept child. The set must have room for one more.
pub(crate) fn take_kept<A: Allocator, B: Allocator>(
    kept: &mut Ids<A>,
    children: &ById<UnreapedChild, A>,
    happening: &HappeningIn<B>,
)
    requires { 0 < set_spare kept.old }
    ensures { (id : List ℕ) → among id kept.new.keys
        ≡ kept_after (λ i. is_some (at i children.now.entries)) happening.now id
        (among id kept.old.keys) }
{
    match happening {
        Happening::Birth(id, _) => add(kept, *id),
        Happening::Told(id) => set_if(kept, id, children.contains_key(id)),
        _ => {}
    }
}

/// Updates the ids that were asked, that is, had a start ordered. The set must have room for one more.
pub(crate) fn take_asked<A: Allocator + Copy, B: Allocator>(
    asked: &mut Ids<A>,
    table: &Table<A>,
    happening: &HappeningIn<B>,
)
    requires { 0 < set_spare asked.old }
    ensures { (id : List ℕ) → among id asked.new.keys
        ≡ asked_after table.now happening.now id (among id asked.old.keys) }
{
    match happening {
        Happening::Enter(..) => forget_ids(asked),
        Happening::NewTable(next) => drop_brought(asked, table, next),
        Happening::Asked(id, OrderKind::Start) => add(asked, *id),
        _ => {}
    }
}

/// Removes the ids that the next table adds or gives a different action.
fn drop_brought<A: Allocator, B: Allocator>(asked: &mut Ids<A>, before: &Table<A>, next: &Table<B>)
    ensures { (id : List ℕ) → among id asked.new.keys
        ≡ (not (list_any (λ e. has_id id e && is_changed e.id next.now before.now) next.now)
        && among id asked.old.keys) }
{
    for position in 0..next.len() {
        let entry = entry_at(next, position);
        drop_if(asked, &entry.id, is_changed(next, before, &entry.id));
    }
}

/// Returns whether a power event or a letter names the entry.
fn is_named<B: Allocator>(happening: &HappeningIn<B>, entry: &Entry) -> bool
    ensures { result ≡ is_named happening.now entry.now }
{
    match happening {
        Happening::Power(kind) => entry.act.is_called_by(*kind),
        Happening::Call(letter) => {
            entry.act.is_ondemand() && names(entry.levels.as_slice(), Mark::OnCall(*letter))
        }
        _ => false,
    }
}

/// Returns whether the happening calls the entry: it names the entry, and the entry starts in the stage.
fn is_called<B: Allocator>(happening: &HappeningIn<B>, stage: Option<Stage>, entry: &Entry) -> bool
    ensures { result ≡ (is_named happening.now entry.now && starts_in entry.now stage) }
{
    is_named(happening, entry) && starts_in(entry, stage)
}

/// Returns whether the entry of the id stays called when it is started.
fn stays_called<B: Allocator>(table: &Table<B>, id: &Id) -> bool
    ensures { result ≡ stays_called_in table.now id.now }
{
    match act(table, id) {
        Some(act) => act.stays_called(),
        None => false,
    }
}

/// Updates the ids whose entry is called. If memory allocation fails, the set is unchanged.
pub(crate) fn take_called<A: Allocator + Copy, B: Allocator>(
    called: &mut Ids<A>,
    table: &Table<A>,
    stage: Option<Stage>,
    happening: &HappeningIn<B>,
) -> Result<(), Memory>
    ensures ok { OnOk result ((id : List ℕ) → among id called.new.keys
        ≡ called_after table.now stage happening.now id (among id called.old.keys)) }
    ensures err { OnErr result (called.new.keys ≡ called.old.keys) }
{
    match happening {
        Happening::Enter(..) | Happening::NewTable(_) => {
            forget_ids(called);
            Ok(())
        }
        Happening::Power(_) | Happening::Call(_) => add_named(called, table, stage, happening),
        Happening::Asked(id, OrderKind::Start) => {
            drop_if(called, id, !stays_called(table, id));
            Ok(())
        }
        _ => Ok(()),
    }
}

fn add_named<A: Allocator, B: Allocator>(
    called: &mut Ids<A>,
    table: &Table<A>,
    stage: Option<Stage>,
    happening: &HappeningIn<B>,
) -> Result<(), Memory>
    ensures ok { OnOk result ((id : List ℕ) → among id called.new.keys
        ≡ (is_named_at table.now stage happening.now id || among id called.old.keys)) }
    ensures err { OnErr result (called.new.keys ≡ called.old.keys) }
{
    room_for(called, table.len())?;
    for position in 0..table.len() {
        let entry = entry_at(table, position);
        add_if(called, &entry.id, is_called(happening, stage, entry));
    }
    Ok(())
}

/// Updates the ids that were sent a TERM that init has not learned of. The set must have room for one more.
pub(crate) fn take_sent<A: Allocator, B: Allocator>(
    sent: &mut Ids<A>,
    orders: &ById<OrderKind, A>,
    happening: &HappeningIn<B>,
)
    requires { 0 < set_spare sent.old }
    ensures { (id : List ℕ) → among id sent.new.keys
        ≡ sent_after (λ i. at i orders.now.entries) happening.now id (among id sent.old.keys) }
{
    match happening {
        Happening::Birth(id, _) | Happening::Told(id) => {
            sent.swap_remove(id);
        }
        Happening::Hit(id) => add_if(sent, id, is_open(orders, id, OrderKind::Term)),
        _ => {}
    }
}

/// Returns whether the open order of the id is of this kind.
pub(crate) fn is_open<A: Allocator>(orders: &ById<OrderKind, A>, id: &Id, ask: OrderKind) -> bool
    ensures { result ≡ is_order ask (at id.now orders.now.entries) }
{
    match orders.get(id) {
        Some(given) => *given == ask,
        None => false,
    }
}

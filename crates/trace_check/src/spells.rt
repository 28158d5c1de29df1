//! The signals to children that are being stopped, as kept in the checker's state.

ghost use Rattle.std.specs.Prelude.{◌≡◌, ℕ, ◌<◌, if◌then◌else◌, List};
ghost use Rattle.trace_check.specs.Words.{spare, same_id};
ghost use Rattle.trace_check.specs.State.{at, among};
ghost use Rattle.trace_check.specs.After.{child_may_live, is_child_excluded, earliest, term_after};

use crate::children::{UnreapedChild, is_numbered};
use crate::maps::{ById, Ids, put};
use crate::tables::may_live;
use init_words::{Id, Stage};
use inittab_text::Table;
use std::alloc::Allocator;
use trace_events::{Happening, HappeningIn};

/// Returns whether the child of the id may live in the stage under this table.
fn child_may_live<A: Allocator, B: Allocator>(
    table: &Table<B>,
    stage: Option<Stage>,
    children: &ById<UnreapedChild, A>,
    id: &Id,
) -> bool
    ensures { result ≡ child_may_live table.now stage (λ i. at i children.now.entries) id.now }
{
    match children.get(id) {
        Some(living) => may_live(table.get(id), living.act, stage),
        None => false,
    }
}

/// Returns whether the child of the id is excluded: it may not live in the stage, so it is stopped (init(8)).
pub(crate) fn is_child_excluded<A: Allocator, B: Allocator>(
    table: &Table<B>,
    stage: Option<Stage>,
    children: &ById<UnreapedChild, A>,
    id: &Id,
) -> bool
    ensures { result ≡ is_child_excluded table.now stage (λ i. at i children.now.entries) id.now }
{
    match children.get(id) {
        Some(living) => !may_live(table.get(id), living.act, stage),
        None => false,
    }
}

/// Updates for each id the time at which init learned of the first TERM in the child's spell, the period in which the
/// child is excluded. The map must have room for one more.
pub(crate) fn take_term<A: Allocator + Copy, B: Allocator>(
    termed: &mut ById<u64, A>,
    children: &ById<UnreapedChild, A>,
    sent: &Ids<A>,
    table: &Table<A>,
    stage: Option<Stage>,
    time: u64,
    happening: &HappeningIn<B>,
)
    requires { 0 < spare termed.old }
    ensures { (id : List ℕ) → at id termed.new.entries
        ≡ term_after table.now stage time (λ i. at i children.now.entries)
        (λ i. among i sent.now.keys) (λ i. at i termed.old.entries) happening.now id }
{
    match happening {
        Happening::Birth(id, _) => {
            termed.swap_remove(id);
        }
        Happening::Reaped(id, number, _) => {
            if is_numbered(children.get(id), *number) {
                termed.swap_remove(id);
            }
        }
        Happening::Told(id) => {
            if sent.contains(id) && is_child_excluded(table, stage, children, id) {
                note_term(termed, *id, time);
            }
        }
        Happening::NewTable(next) => end_spells(termed, children, next, stage),
        Happening::Enter(next, _) => end_spells(termed, children, table, Some(*next)),
        _ => {}
    }
}

fn note_term<A: Allocator>(termed: &mut ById<u64, A>, id: Id, time: u64)
    requires { 0 < spare termed.old }
    ensures { (other : List ℕ) → at other termed.new.entries
        ≡ (if same_id other id then Some (earliest time (at id termed.old.entries))
        else at other termed.old.entries) }
{
    let first = match termed.get(&id) {
        Some(other) => time.min(*other),
        None => time,
    };
    put(termed, id, first);
}

/// Ends the spells of the children that are no longer excluded.
fn end_spells<A: Allocator, B: Allocator>(
    termed: &mut ById<u64, A>,
    children: &ById<UnreapedChild, A>,
    table: &Table<B>,
    stage: Option<Stage>,
)
    ensures { (id : List ℕ) → at id termed.new.entries
        ≡ (if child_may_live table.now stage (λ i. at i children.now.entries) id then None
        else at id termed.old.entries) }
{
    termed.retain(|id, _| !child_may_live(table, stage, children, id));
}

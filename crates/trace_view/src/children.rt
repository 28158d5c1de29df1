//! The unreaped and the kept children, youngest first.

ghost use Rattle.std.specs.Prelude.{◌≡◌, ◌∷◌, List, None, false, option_map, OnOk, IfOk};
ghost use Rattle.std.specs.List.{list_any};
ghost use Rattle.std.specs.Option.{option_map_or};
ghost use Rattle.trace_view.specs.Words.{Child, Event, first_breach, has_number, kept_children, table_of, unreaped_children};
ghost use Rattle.trace_view.specs.ChildLists.{with_child, without};
ghost use Rattle.trace_view.specs.Births.{early_children, is_born_as, is_early};
ghost use Rattle.trace_view.specs.Viewing.{newborn_in, is_excluded_by};
ghost use Rattle.trace_view.specs.Why.{number_of, excluded_as};
ghost use Rattle.trace_view.specs.Rows.{gone_ids};

use crate::child_lists::ChildList;
use crate::standings::Excluded;
use init_words::{Act, ChildNumber, Entry, Id, Memory, Stage, lives};
use inittab_text::Table;
use std::alloc::Allocator;
use std::marker::Model;
use trace_events::{Happening, HappeningIn};

/// A child: the id for which it was born, its number, and the action of the id in the table at its birth, if any.
#[derive(Clone, Copy)]
pub struct BornChild {
    pub id: Id,
    pub number: ChildNumber,
    pub act: Option<Act>,
}

impl Model for BornChild {
    ghost use Rattle.trace_view.specs.Words.{Child};

    ghost Value = { Child };

    ghost view = { λ c. record { id = c.id; number = c.number; act = c.act } };

    ghost inverse = { λ c. record { id = c.id; number = c.number; act = c.act } };
}

/// Returns the child of a birth, given the table in force.
pub(crate) fn newborn<A: Allocator>(table: &Table<A>, id: Id, number: ChildNumber) -> BornChild
    ensures { result ≡ newborn_in table.now id number }
{
    let act = table.get(&id).map(|entry| entry.act);
    BornChild { id, number, act }
}

/// Updates the unreaped children, youngest first, for a happening.
pub(crate) fn take_unreaped<A: Allocator, B: Allocator>(
    unreaped: &mut ChildList<A>,
    table: &Table<A>,
    happening: &HappeningIn<B>,
) -> Result<(), Memory>
    ensures { OnOk result ((past : List Event) → first_breach past ≡ None
        → table.now ≡ table_of (happening.now ∷ past) → unreaped.old ≡ unreaped_children past
        → unreaped.new ≡ unreaped_children (happening.now ∷ past)) }
{
    match happening {
        Happening::Birth(id, number) => {
            unreaped.push(newborn(table, *id, *number))?;
            Ok(())
        }
        Happening::Reaped(id, number, _) => {
            drop_child(unreaped, *id, *number)?;
            Ok(())
        }
        _ => Ok(()),
    }
}

/// Removes the children of the id if the youngest of them has this number.
fn drop_child<A: Allocator>(
    children: &mut ChildList<A>,
    id: Id,
    number: ChildNumber,
) -> Result<(), Memory>
    ensures { OnOk result (children.new ≡ without id number children.old) }
{
    if has_number(children.youngest_of(id), number) {
        children.drop_id(id)?;
    }
    Ok(())
}

/// Returns whether the child exists and has this number.
fn has_number(child: Option<BornChild>, number: ChildNumber) -> bool
    ensures { result ≡ option_map_or (has_number number) child false }
{
    match child {
        Some(child) => number == child.number,
        None => false,
    }
}

/// Updates the kept children, youngest first, for a happening.
pub(crate) fn take_kept<A: Allocator, B: Allocator>(
    kept: &mut ChildList<A>,
    unreaped: &ChildList<A>,
    table: &Table<A>,
    happening: &HappeningIn<B>,
) -> Result<(), Memory>
    ensures { OnOk result ((past : List Event) → first_breach past ≡ None
        → table.now ≡ table_of (happening.now ∷ past) → unreaped.now ≡ unreaped_children past
        → kept.old ≡ kept_children past
        → kept.new ≡ kept_children (happening.now ∷ past)) }
{
    match happening {
        Happening::Birth(id, number) => {
            kept.push(newborn(table, *id, *number))?;
            Ok(())
        }
        Happening::Told(id) => {
            kept.drop_id(*id)?;
            push_some(kept, unreaped.youngest_of(*id))?;
            Ok(())
        }
        _ => Ok(()),
    }
}

/// Adds a child, if there is one.
fn push_some<A: Allocator>(
    children: &mut ChildList<A>,
    child: Option<BornChild>,
) -> Result<(), Memory>
    ensures { OnOk result (children.new ≡ with_child child children.old) }
{
    if let Some(child) = child {
        children.push(child)?;
    }
    Ok(())
}

/// Returns whether the child was born for an entry whose action starts it before the first level.
pub(crate) fn is_early(child: &BornChild) -> bool
    ensures { result ≡ is_early child.now }
{
    match child.act {
        Some(act) => act.ignores_levels(),
        None => false,
    }
}

/// Updates the children born before the first level, oldest first, for a happening.
pub(crate) fn take_early<A: Allocator, B: Allocator>(
    early: &mut Vec<BornChild, A>,
    table: &Table<A>,
    happening: &HappeningIn<B>,
) -> Result<(), Memory>
    ensures { OnOk result ((past : List Event) → table.now ≡ table_of (happening.now ∷ past)
        → early.old.items ≡ early_children past
        → early.new.items ≡ early_children (happening.now ∷ past)) }
{
    let Happening::Birth(id, number) = happening else {
        return Ok(());
    };
    let child = newborn(table, *id, *number);
    if is_early(&child) {
        early.push(child)?;
    }
    Ok(())
}

/// Returns whether the child was born for the entry, which had the same action then.
fn is_born_as(entry: &Entry, child: &BornChild) -> bool
    ensures { result ≡ is_born_as entry.now child.now }
{
    match child.act {
        Some(act) => entry.id == child.id && act == entry.act,
        None => false,
    }
}

/// Returns whether one of the children was born for the entry, which had the same action then.
pub(crate) fn has_born_as(entry: &Entry, children: &[BornChild]) -> bool
    ensures { result ≡ list_any (is_born_as entry.now) children.now }
{
    children.iter().any(|child| is_born_as(entry, child))
}

/// Returns the number of the child, if there is a child.
pub(crate) fn number_of(child: Option<BornChild>) -> Option<ChildNumber>
    ensures { result ≡ option_map number_of child }
{
    Some(child?.number)
}

/// Returns whether the child is excluded: under this table, it may not live in the stage, so it is stopped (init(8)).
pub(crate) fn is_excluded<A: Allocator>(
    table: &Table<A>,
    stage: Option<Stage>,
    child: &BornChild,
) -> bool
    ensures { result ≡ is_excluded_by table.now stage child.now }
{
    match (table.get(&child.id), child.act, stage) {
        (Some(entry), Some(act), Some(stage)) => !(entry.act == act && lives(entry, stage)),
        _ => true,
    }
}

/// Returns the id and number of a child.
pub(crate) fn excluded_as(child: &BornChild) -> Excluded
    ensures { result ≡ excluded_as child.now }
{
    Excluded {
        id: child.id,
        number: child.number,
    }
}

/// Returns whether the child exists and is excluded.
pub(crate) fn is_child_excluded<A: Allocator>(
    child: Option<BornChild>,
    table: &Table<A>,
    stage: Option<Stage>,
) -> bool
    ensures { result ≡ option_map_or (is_excluded_by table.now stage) child false }
{
    match child {
        Some(child) => is_excluded(table, stage, &child),
        None => false,
    }
}

/// Returns the ids of the children for which the table has no entry.
pub(crate) fn gone_of<A: Allocator, B: Allocator + Copy>(
    alloc: B,
    table: &Table<A>,
    children: &[BornChild],
) -> Result<Vec<Id, B>, Memory>
    ensures { IfOk result (λ ids. ids.items ≡ gone_ids table.now children.now) }
{
    Ok(
        children
            .iter()
            .filter(|child| table.get(&child.id).is_none())
            .map(|child| child.id)
            .collect(alloc)?,
    )
}

//! The lookups that the checker makes in the table in force.

ghost use Rattle.std.specs.Prelude.{◌≡◌, ◌<◌, length, slice_get, option_copied, Some, List, IfOk};
ghost use Rattle.std.specs.Option.{option_map_or};
ghost use Rattle.trace_check.specs.Words.{Entry, act_of, same_acts, starts_in, may_live};
ghost use Rattle.trace_check.specs.After.{table_after, is_changed};

use init_words::{Act, Entry, Id, Memory, Stage, lives, starts};
use inittab_text::Table;
use std::alloc::Allocator;
use trace_events::{Happening, HappeningIn};

/// Returns the entry at a position less than the length.
pub(crate) fn entry_at<B: Allocator>(table: &Table<B>, position: usize) -> &Entry
    requires { position < length table.now }
    ensures { slice_get table.now position ≡ Some result.now }
{
    let Some(entry) = table.at(position) else {
        unreachable!()
    };
    entry
}

/// Returns the action of an id.
pub(crate) fn act<B: Allocator>(table: &Table<B>, id: &Id) -> Option<Act>
    ensures { result ≡ act_of id.now table.now }
{
    let entry = table.get(id)?;
    Some(entry.act)
}

/// Returns whether the id has different actions in the two tables, or is missing from at least one of them.
pub(crate) fn is_changed<B: Allocator, C: Allocator>(
    table: &Table<B>,
    other: &Table<C>,
    id: &Id,
) -> bool
    ensures { result ≡ is_changed id.now table.now other.now }
{
    !same_acts(act(table, id), act(other, id))
}

/// Returns a copy of the table of the happening, if the happening is a new table.
pub(crate) fn happening_table<A: Allocator + Copy, B: Allocator>(
    alloc: A,
    happening: &HappeningIn<B>,
) -> Result<Option<Table<A>>, Memory>
    ensures { IfOk result (λ brought. (table : List Entry)
        → option_map_or (λ next. next) brought table ≡ table_after happening.now table) }
{
    match happening {
        Happening::NewTable(next) => Ok(Some(next.copy(alloc)?)),
        _ => Ok(None),
    }
}

/// Replaces the table in force with the new table, if there is one.
pub(crate) fn adopt_happening_table<A: Allocator>(table: &mut Table<A>, brought: Option<Table<A>>)
    ensures { table.new ≡ option_map_or (λ next. next) brought table.old }
{
    if let Some(next) = brought {
        *table = next;
    }
}

/// Returns whether both actions exist and are the same.
fn same_acts(act: Option<Act>, other: Option<Act>) -> bool
    ensures { result ≡ same_acts act other }
{
    match (act, other) {
        (Some(act), Some(other)) => act == other,
        _ => false,
    }
}

/// Returns whether the entry starts in the stage. No entry starts before the first stage.
pub(crate) fn starts_in(entry: &Entry, stage: Option<Stage>) -> bool
    ensures { result ≡ starts_in entry.now stage }
{
    match stage {
        Some(stage) => starts(entry, stage),
        None => false,
    }
}

/// Returns whether a child born with this action may live in the stage, given the entry of its id (init(8)).
pub(crate) fn may_live(entry: Option<&Entry>, act: Option<Act>, stage: Option<Stage>) -> bool
    ensures { result ≡ may_live (option_copied entry.entry) act stage }
{
    match (entry, act, stage) {
        (Some(entry), Some(act), Some(stage)) => entry.act == act && lives(entry, stage),
        _ => false,
    }
}

//! The unreaped children, as kept in the checker's state.

ghost use Rattle.std.specs.Prelude.{◌≡◌, ◌<◌, ℕ, List, option_copied};
ghost use Rattle.trace_check.specs.Words.{spare};
ghost use Rattle.trace_check.specs.State.{at};
ghost use Rattle.trace_check.specs.After.{is_numbered, child_after};

use crate::maps::{ById, put};
use crate::tables::act;
use init_words::{Act, ChildNumber};
use inittab_text::Table;
use std::alloc::Allocator;
use trace_events::{Happening, HappeningIn};

/// An unreaped child: its number, and the action that the table had for its id at its birth.
#[derive(Clone, Copy)]
pub(crate) struct UnreapedChild {
    pub(crate) number: ChildNumber,
    pub(crate) act: Option<Act>,
}

/// Updates the unreaped children for a happening. The map must have room for one more.
pub(crate) fn take_child<A: Allocator, B: Allocator>(
    children: &mut ById<UnreapedChild, A>,
    table: &Table<A>,
    happening: &HappeningIn<B>,
)
    requires { 0 < spare children.old }
    ensures { (id : List ℕ) → at id children.new.entries
        ≡ child_after table.now (λ i. at i children.old.entries) happening.now id }
{
    match happening {
        Happening::Birth(id, number) => {
            let living = UnreapedChild {
                number: *number,
                act: act(table, id),
            };
            put(children, *id, living);
        }
        Happening::Reaped(id, number, _) => {
            if is_numbered(children.get(id), *number) {
                children.swap_remove(id);
            }
        }
        _ => {}
    }
}

/// Returns whether the child exists and has this number.
pub(crate) fn is_numbered(child: Option<&UnreapedChild>, number: ChildNumber) -> bool
    ensures { result ≡ is_numbered number (option_copied child.entry) }
{
    match child {
        Some(living) => number == living.number,
        None => false,
    }
}

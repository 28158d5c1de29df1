//! The report about an id.

ghost use Rattle.std.specs.Prelude.{◌≡◌, ◌∷◌, ℕ, List, [], OnOk};
ghost use Rattle.trace_view.specs.Words.{Event, at, time_of};
ghost use Rattle.trace_view.specs.Births.{births_of, one_more};
ghost use Rattle.trace_view.specs.Rows.{ended_of};

use crate::whys::Why;
use indexmap::IndexMap;
use init_words::{Act, ChildNumber, Id, Memory, OrderKind, Status};
use std::alloc::Allocator;
use std::hash::{BuildHasherDefault, FoldHasher};
use trace_events::{Happening, HappeningIn};

/// The number of children born for an id, and the time of the latest birth in seconds.
#[derive(Clone, Copy)]
pub struct Births {
    pub count: u64,
    pub latest: u64,
}

/// The last end of an id: the status of its child, and the time in seconds.
#[derive(Clone, Copy)]
pub struct Ending {
    /// The status with which its child was reaped, or `None` if a start failed.
    pub status: Option<Status>,
    pub time: u64,
}

/// The report about an id. Times are in seconds.
#[derive(Clone, Copy)]
pub struct Row {
    /// The action of the entry, if the table in force has an entry for the id.
    pub act: Option<Act>,
    /// The reason why the id is not started next.
    pub why: Why,
    /// The unreaped child of the id.
    pub child: Option<ChildNumber>,
    /// The number of its births, and the time of the last one.
    pub births: Option<Births>,
    /// Whether that child is excluded, that is, being stopped.
    pub excluded: bool,
    /// The open order for the id.
    pub order: Option<OrderKind>,
    /// The time at which init learned that its child was sent a TERM, if the child is excluded.
    pub term: Option<u64>,
    /// The last end of the id.
    pub last: Option<Ending>,
}

/// A value for each id.
pub(crate) type ById<V, A> = IndexMap<Id, V, BuildHasherDefault<FoldHasher>, A>;

/// Returns an empty map. This does not allocate.
pub(crate) fn empty_map<V, A: Allocator + Copy>(alloc: A) -> ById<V, A>
    ensures { result.entries ≡ [] }
{
    IndexMap::new(alloc)
}

/// Returns the births after one more at this time.
fn one_more(before: Option<Births>, time: u64) -> Births
    ensures { result ≡ one_more time before }
{
    match before {
        Some(births) => Births {
            count: births.count.saturating_add(1),
            latest: time,
        },
        None => Births {
            count: 1,
            latest: time,
        },
    }
}

/// Updates the births of each id for a happening.
pub(crate) fn take_birth<A: Allocator, B: Allocator>(
    births: &mut ById<Births, A>,
    time: u64,
    happening: &HappeningIn<B>,
) -> Result<(), Memory>
    ensures { OnOk result ((past : List Event) → time ≡ time_of (happening.now ∷ past)
        → ((id : List ℕ) → at id births.old.entries ≡ births_of id past)
        → ((id : List ℕ) → at id births.new.entries ≡ births_of id (happening.now ∷ past))) }
{
    match happening {
        Happening::Birth(id, _) => {
            let before = of_id(births, id);
            births.insert(*id, one_more(before, time))?;
            Ok(())
        }
        _ => Ok(()),
    }
}

/// Updates the last end of each id for a happening.
pub(crate) fn take_end<A: Allocator, B: Allocator>(
    ends: &mut ById<Ending, A>,
    time: u64,
    happening: &HappeningIn<B>,
) -> Result<(), Memory>
    ensures { OnOk result ((past : List Event) → time ≡ time_of (happening.now ∷ past)
        → ((id : List ℕ) → at id ends.old.entries ≡ ended_of id past)
        → ((id : List ℕ) → at id ends.new.entries ≡ ended_of id (happening.now ∷ past))) }
{
    match happening {
        Happening::NoBirth(id) => {
            ends.insert(*id, Ending { status: None, time })?;
            Ok(())
        }
        Happening::Reaped(id, _, status) => {
            let ending = Ending {
                status: Some(*status),
                time,
            };
            ends.insert(*id, ending)?;
            Ok(())
        }
        _ => Ok(()),
    }
}

/// Returns the value of an id.
pub(crate) fn of_id<V: Copy, A: Allocator>(values: &ById<V, A>, id: &Id) -> Option<V>
    ensures { result ≡ at id.now values.now.entries }
{
    values.get(id).copied()
}

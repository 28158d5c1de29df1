//! Maps and sets of ids.

ghost use Rattle.std.specs.Prelude.{◌≡◌, ◌<◌, ◌≤◌, ◌+◌, ℕ, not, ◌&&◌, ◌||◌, if◌then◌else◌, List, [], Some, OnOk};
ghost use Rattle.trace_check.specs.Words.{spare, same_id};
ghost use Rattle.indexmap.specs.IndexSet.{spare as set_spare};
ghost use Rattle.trace_check.specs.State.{at, among};

use indexmap::{IndexMap, IndexSet};
use init_words::{Id, Memory};
use std::alloc::Allocator;
use std::hash::{BuildHasherDefault, FoldHasher};

/// A value for each id.
pub(crate) type ById<V, A> = IndexMap<Id, V, BuildHasherDefault<FoldHasher>, A>;

/// A set of ids.
pub(crate) type Ids<A> = IndexSet<Id, BuildHasherDefault<FoldHasher>, A>;

/// Creates an empty map. This allocates no memory.
pub(crate) fn empty_map<V, A: Allocator + Copy>(alloc: A) -> ById<V, A>
    ensures { result.entries ≡ [] }
{
    IndexMap::new(alloc)
}

/// Creates an empty set. This allocates no memory.
pub(crate) fn no_ids<A: Allocator + Copy>(alloc: A) -> Ids<A>
    ensures { result.keys ≡ [] }
{
    IndexSet::new(alloc)
}

/// Removes all entries and frees their memory.
pub(crate) fn forget_all<V: Drop, A: Allocator + Copy>(map: &mut ById<V, A>)
    ensures { map.new.entries ≡ [] }
{
    *map = empty_map(*map.allocator());
}

/// Removes all ids and frees their memory.
pub(crate) fn forget_ids<A: Allocator + Copy>(ids: &mut Ids<A>)
    ensures { ids.new.keys ≡ [] }
{
    *ids = no_ids(*ids.allocator());
}

/// Makes room for one more id.
pub(crate) fn room_for_one<V: Drop, A: Allocator>(map: &mut ById<V, A>) -> Result<(), Memory>
    ensures same { map.new.entries ≡ map.old.entries }
    ensures room { OnOk result (0 < spare map.new) }
{
    map.reserve(1)?;
    Ok(())
}

/// Makes room for `count` more ids.
pub(crate) fn room_for<A: Allocator>(ids: &mut Ids<A>, count: usize) -> Result<(), Memory>
    ensures same { ids.new.keys ≡ ids.old.keys }
    ensures room { OnOk result (count ≤ set_spare ids.new) }
{
    ids.reserve(count)?;
    Ok(())
}

/// Sets the value of the id. The map must have room for it.
pub(crate) fn put<V: Drop, A: Allocator>(map: &mut ById<V, A>, id: Id, value: V)
    requires { 0 < spare map.old }
    ensures { (other : List ℕ) → at other map.new.entries
        ≡ (if same_id other id then Some value else at other map.old.entries) }
{
    let Ok(_) = map.insert(id, value) else {
        unreachable!()
    };
}

/// Adds the id. The set must have room for it.
pub(crate) fn add<A: Allocator>(ids: &mut Ids<A>, id: Id)
    requires { 0 < set_spare ids.old }
    ensures added { (other : List ℕ) → among other ids.new.keys
        ≡ (same_id other id || among other ids.old.keys) }
    ensures room { set_spare ids.old ≤ set_spare ids.new + 1 }
{
    let Ok(_) = ids.insert(id) else {
        unreachable!()
    };
}

/// Adds the id if `test` is true. The set must have room for it.
pub(crate) fn add_if<A: Allocator>(ids: &mut Ids<A>, id: &Id, test: bool)
    requires { 0 < set_spare ids.old }
    ensures added { (other : List ℕ) → among other ids.new.keys
        ≡ (same_id other id.now && test || among other ids.old.keys) }
    ensures room { set_spare ids.old ≤ set_spare ids.new + 1 }
{
    if test {
        add(ids, *id);
    }
}

/// Removes the id if `test` is true.
pub(crate) fn drop_if<A: Allocator>(ids: &mut Ids<A>, id: &Id, test: bool)
    ensures { (other : List ℕ) → among other ids.new.keys
        ≡ (not (same_id other id.now && test) && among other ids.old.keys) }
{
    if test {
        ids.swap_remove(id);
    }
}

/// Adds the id if `test` is true, and removes it otherwise. The set must have room for it.
pub(crate) fn set_if<A: Allocator>(ids: &mut Ids<A>, id: &Id, test: bool)
    requires { 0 < set_spare ids.old }
    ensures { (other : List ℕ) → among other ids.new.keys
        ≡ (if same_id other id.now then test else among other ids.old.keys) }
{
    if test {
        add(ids, *id);
    } else {
        ids.swap_remove(id);
    }
}

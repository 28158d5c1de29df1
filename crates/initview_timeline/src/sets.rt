//! Sets of ids with lookup in constant time.

ghost use Rattle.std.specs.Prelude.{◌≡◌, ◌&&◌, ◌||◌, List, ℕ, [], IfOk, OnOk};
ghost use Rattle.std.specs.Option.{option_map_or};
ghost use Rattle.init_words.specs.Ids.{same_id};
ghost use Rattle.initview_timeline.specs.Lives.{id_of};
ghost use Rattle.initview_timeline.specs.Rows.{among, had_marks, is_begun, is_waited, starts_now, starts_there};

use crate::lives::id_of;
use crate::marks::{Shown, TimelineMark};
use crate::rows::starts_now;
use indexmap::IndexSet;
use init_words::{Entry, Id, Stage, waited};
use std::alloc::{AllocError, Global};
use std::hash::{BuildHasherDefault, FoldHasher};

/// Ids without repetition, in the order in which they were added.
pub(crate) type Ids = IndexSet<Id, BuildHasherDefault<FoldHasher>>;

/// Creates an empty set. It allocates no memory.
pub(crate) fn no_ids(alloc: Global) -> Ids
    ensures { result.keys ≡ [] }
{
    IndexSet::new(alloc)
}

/// Adds the id if `test` is true.
fn add_if(ids: &mut Ids, id: Id, test: bool) -> Result<(), AllocError>
    ensures { OnOk result ((other : List ℕ) → among other ids.new.keys
        ≡ (same_id other id && test || among other ids.old.keys)) }
{
    if test {
        ids.insert(id)?;
    }
    Ok(())
}

/// Returns the ids that have a mark.
#[tactic(auto, using(crate::proofs::Parted::one_more))]
pub(crate) fn marked_ids(alloc: Global, marks: &[TimelineMark]) -> Result<Ids, AllocError>
    ensures { IfOk result (λ ids. (id : List ℕ) → among id ids.keys ≡ had_marks id marks.now) }
{
    let mut ids = no_ids(alloc);
    let mut rest = marks;
    while let Some((mark, others)) = rest.split_first() {
        if let Some(id) = id_of(mark.what) {
            add_if(&mut ids, id, true)?;
        }
        rest = others;
    }
    Ok(ids)
}

/// Returns the ids that have a start, successful or failed.
#[tactic(auto, using(crate::proofs::Parted::one_more))]
pub(crate) fn begun_ids(alloc: Global, marks: &[TimelineMark]) -> Result<Ids, AllocError>
    ensures { IfOk result (λ ids. (id : List ℕ) → among id ids.keys ≡ is_begun id marks.now) }
{
    let mut ids = no_ids(alloc);
    let mut rest = marks;
    while let Some((mark, others)) = rest.split_first() {
        if let Shown::Born(id, _) | Shown::NotBorn(id) = mark.what {
            add_if(&mut ids, id, true)?;
        }
        rest = others;
    }
    Ok(ids)
}

/// Returns the ids of the entries that init waits for.
#[tactic(auto, using(crate::proofs::Parted::one_more))]
pub(crate) fn waited_ids(alloc: Global, entries: &[Entry]) -> Result<Ids, AllocError>
    ensures { IfOk result (λ ids. (id : List ℕ) → among id ids.keys ≡ is_waited id entries.now) }
{
    let mut ids = no_ids(alloc);
    let mut rest = entries;
    while let Some((entry, others)) = rest.split_first() {
        add_if(&mut ids, entry.id, waited(entry))?;
        rest = others;
    }
    Ok(ids)
}

/// Returns the ids that start in the stage.
#[tactic(auto, using(crate::proofs::Parted::one_more))]
pub(crate) fn starting_ids(
    alloc: Global,
    stage: Option<Stage>,
    entries: &[Entry],
) -> Result<Ids, AllocError>
    ensures { IfOk result (λ ids. (id : List ℕ)
        → among id ids.keys ≡ starts_there id stage entries.now) }
{
    let mut ids = no_ids(alloc);
    let mut rest = entries;
    while let Some((entry, others)) = rest.split_first() {
        add_if(&mut ids, entry.id, starts_now(entry, stage))?;
        rest = others;
    }
    Ok(ids)
}

/// Returns the set of these ids.
#[tactic(auto, using(crate::proofs::Parted::one_more))]
pub(crate) fn set_of(alloc: Global, ids: &[Id]) -> Result<Ids, AllocError>
    ensures { IfOk result (λ set. (id : List ℕ) → among id set.keys ≡ among id ids.now) }
{
    let mut set = no_ids(alloc);
    let mut rest = ids;
    while let Some((id, others)) = rest.split_first() {
        add_if(&mut set, *id, true)?;
        rest = others;
    }
    Ok(set)
}

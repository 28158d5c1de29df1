//! A list of children in order of birth, from which all children of an id can be removed at once.

ghost use Rattle.std.specs.Prelude.{◌≡◌, ◌∷◌, ◌++◌, ◌<◌, ◌&&◌, if◌then◌else◌, List, [], ℕ, not, find, filter, reverse, true, Some, None, OnOk, OnErr, IfOk, option_map};
ghost use Rattle.indexmap.specs.IndexMap.{spare};
ghost use Rattle.trace_view.specs.Words.{Child, at, is_child_of, same_id};
ghost use Rattle.trace_view.specs.ChildLists.{are_below, stays, staying};
ghost use Rattle.trace_view.specs.Viewing.{is_excluded_by};
ghost use Rattle.trace_view.specs.Why.{excluded_as};

use crate::children::{BornChild, excluded_as, is_excluded};
use crate::rows::{ById, empty_map};
use crate::standings::Excluded;
use init_words::{Id, Memory, Stage};
use inittab_text::Table;
use std::alloc::Allocator;
use std::marker::Model;

/// A child and its arrival number: the number of children that were added to the list before it.
#[derive(Clone, Copy)]
pub(crate) struct Arrival {
    pub(crate) child: BornChild,
    pub(crate) number: u64,
}

/// A list of children, youngest first.
///
/// Removing all children of an id takes constant time: they are only marked as gone, and removed from memory later.
#[derive(Drop)]
pub(crate) struct ChildList<A: Allocator> {
    // The arrivals, oldest first, including those that are gone.
    arrivals: Vec<Arrival, A>,
    // For each id, the number below which its arrivals have been removed.
    gone: ById<u64, A>,
    // The youngest child of each id.
    youngest: ById<BornChild, A>,
    // The number of the next arrival.
    next: u64,
    // The number of arrivals at which those that are gone are removed from memory.
    room: usize,
}

impl<A: Allocator> Model for ChildList<A> {
    ghost use Rattle.std.specs.Prelude.{List, reverse};
    ghost use Rattle.trace_view.specs.Words.{Child};
    ghost use Rattle.trace_view.specs.ChildLists.{IsListed, staying};

    ghost Value = { List Child };

    ghost view = { λ l. staying l.gone.entries (reverse l.arrivals.items) };

    ghost invariant = { λ l.
        IsListed l.gone.entries (reverse l.arrivals.items) l.youngest.entries l.next };
}

/// Returns whether an arrival is still in the list: the children of its id were not removed since it was added.
fn stays<A: Allocator>(gone: &ById<u64, A>, arrival: &Arrival) -> bool
    ensures { result ≡ stays gone.now.entries arrival.now }
{
    match gone.get(&arrival.child.id) {
        Some(number) => *number <= arrival.number,
        None => true,
    }
}

/// Marks the arrivals of an id with a number below `number` as gone.
fn mark<A: Allocator>(gone: &mut ById<u64, A>, id: Id, number: u64) -> Result<(), Memory>
    ensures ok { OnOk result ((other : List ℕ) → at other gone.new.entries
        ≡ (if same_id other id then Some number else at other gone.old.entries)) }
    ensures err { OnErr result (gone.new.entries ≡ gone.old.entries) }
{
    gone.insert(id, number)?;
    Ok(())
}

fn forget<A: Allocator>(youngest: &mut ById<BornChild, A>, id: &Id)
    ensures { (other : List ℕ) → at other youngest.new.entries
        ≡ (if same_id other id.now then None else at other youngest.old.entries) }
{
    youngest.swap_remove(id);
}

/// Removes the arrivals that are gone from memory.
fn drop_gone<A: Allocator>(arrivals: &mut Vec<Arrival, A>, gone: &ById<u64, A>)
    ensures { arrivals.new.items ≡ filter (stays gone.now.entries) arrivals.old.items }
{
    arrivals.retain(|arrival: &Arrival| stays(gone, arrival));
}

/// Removes the arrivals that are gone from memory if there are at least `room` arrivals. Returns the number of arrivals
/// at which to do this next.
fn make_room<A: Allocator>(
    arrivals: &mut Vec<Arrival, A>,
    gone: &ById<u64, A>,
    room: usize,
) -> usize
    ensures same { staying gone.now.entries (reverse arrivals.new.items)
        ≡ staying gone.now.entries (reverse arrivals.old.items) }
    ensures below { (next : ℕ) → are_below next (reverse arrivals.old.items) ≡ true
        → are_below next (reverse arrivals.new.items) ≡ true }
{
    if arrivals.len() < room {
        return room;
    }
    drop_gone(arrivals, gone);
    arrivals.len().saturating_mul(2).saturating_add(64)
}

/// Reserves memory for one more entry.
fn room_for_one<A: Allocator>(map: &mut ById<BornChild, A>) -> Result<(), Memory>
    ensures same { map.new.entries ≡ map.old.entries }
    ensures room { OnOk result (0 < spare map.new) }
{
    map.reserve(1)?;
    Ok(())
}

/// Inserts a child under its id. The map must have room for it.
fn put<A: Allocator>(map: &mut ById<BornChild, A>, child: BornChild)
    requires { 0 < spare map.old }
    ensures { (id : List ℕ) → at id map.new.entries
        ≡ (if same_id id child.id then Some child else at id map.old.entries) }
{
    let Ok(_) = map.insert(child.id, child) else {
        unreachable!()
    };
}

/// Returns whether an arrival is still in the list and is excluded.
fn is_excluded_still<A: Allocator>(
    gone: &ById<u64, A>,
    table: &Table<A>,
    stage: Option<Stage>,
    arrival: &Arrival,
) -> bool
    ensures { result ≡ (stays gone.now.entries arrival.now
        && is_excluded_by table.now stage arrival.now.child) }
{
    stays(gone, arrival) && is_excluded(table, stage, &arrival.child)
}

/// Returns the id and number of the youngest excluded child in the list.
fn first_excluded<A: Allocator>(
    gone: &ById<u64, A>,
    arrivals: &[Arrival],
    table: &Table<A>,
    stage: Option<Stage>,
) -> Option<Excluded>
    ensures { result ≡ option_map excluded_as (find (is_excluded_by table.now stage)
        (staying gone.now.entries (reverse arrivals.now))) }
{
    let mut rest = arrivals;
    while let Some((arrival, before)) = rest.split_last() {
        if is_excluded_still(gone, table, stage, arrival) {
            return Some(excluded_as(&arrival.child));
        }
        rest = before;
    }
    None
}

/// Appends the child if `so` is true.
fn push_if<B: Allocator>(
    children: &mut Vec<BornChild, B>,
    child: BornChild,
    so: bool,
) -> Result<(), Memory>
    ensures { OnOk result (children.new.items
        ≡ children.old.items ++ (if so then child ∷ [] else [])) }
{
    if so {
        children.push(child)?;
    }
    Ok(())
}

/// Returns the children in the list, youngest first.
fn staying<A: Allocator, B: Allocator>(
    alloc: B,
    gone: &ById<u64, A>,
    arrivals: &[Arrival],
) -> Result<Vec<BornChild, B>, Memory>
    ensures { IfOk result (λ children.
        children.items ≡ staying gone.now.entries (reverse arrivals.now)) }
{
    let mut children = Vec::new(alloc);
    let mut rest = arrivals;
    while let Some((arrival, before)) = rest.split_last() {
        push_if(&mut children, arrival.child, stays(gone, arrival))?;
        rest = before;
    }
    Ok(children)
}

impl<A: Allocator + Copy> ChildList<A> {
    /// Creates an empty list. This does not allocate.
    pub(crate) fn new(alloc: A) -> ChildList<A>
        ensures { result ≡ [] }
    {
        ChildList {
            arrivals: Vec::new(alloc),
            gone: empty_map(alloc),
            youngest: empty_map(alloc),
            next: 0,
            room: 64,
        }
    }
}

impl<A: Allocator> ChildList<A> {
    /// Adds a child at the front, as the youngest.
    pub(crate) fn push(&mut self, child: BornChild) -> Result<(), Memory>
        ensures { OnOk result (self.new ≡ child ∷ self.old) }
    {
        let number = self.next;
        let Some(next) = number.checked_add(1) else {
            return Err(Memory);
        };
        self.room = make_room(&mut self.arrivals, &self.gone, self.room);
        room_for_one(&mut self.youngest)?;
        self.arrivals.push(Arrival { child, number })?;
        put(&mut self.youngest, child);
        self.next = next;
        Ok(())
    }

    /// Removes all children of an id.
    pub(crate) fn drop_id(&mut self, id: Id) -> Result<(), Memory>
        ensures { OnOk result (self.new
            ≡ filter (λ (child : Child). not (is_child_of id child)) self.old) }
    {
        mark(&mut self.gone, id, self.next)?;
        forget(&mut self.youngest, &id);
        Ok(())
    }

    /// Returns the youngest child of an id.
    pub(crate) fn youngest_of(&self, id: Id) -> Option<BornChild>
        ensures { result ≡ find (is_child_of id) self.now }
    {
        self.youngest.get(&id).copied()
    }

    /// Returns the id and number of the youngest excluded child.
    pub(crate) fn excluded(&self, table: &Table<A>, stage: Option<Stage>) -> Option<Excluded>
        ensures { result ≡ option_map excluded_as (find (is_excluded_by table.now stage) self.now) }
    {
        first_excluded(&self.gone, self.arrivals.as_slice(), table, stage)
    }

    /// Returns all children, youngest first.
    pub(crate) fn to_vec<B: Allocator>(&self, alloc: B) -> Result<Vec<BornChild, B>, Memory>
        ensures { IfOk result (λ children. children.items ≡ self.now) }
    {
        staying(alloc, &self.gone, self.arrivals.as_slice())
    }
}

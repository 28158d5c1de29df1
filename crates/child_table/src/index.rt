//! Indexes of the records: those with a child, by its number, and those whose last signal was SIGTERM, by its time.

ghost use Rattle.std.specs.Prelude.{◌≡◌, ◌≤◌, ◌+◌, Bool, if◌then◌else◌, nat_lt, slice_get, true, false, length, OnOk};
ghost use Rattle.std.specs.List.{count_by};
ghost use Rattle.std.specs.List.Sorted.{IsPartitionPoint};
ghost use Rattle.std.specs.Vec.{vec_capacity};
ghost use Rattle.child_table.specs.declared.index.Keyed.{Keyed};
ghost use Rattle.child_table.specs.Indexing.{are_sorted, child_of, termed_of, passes, without_id, changes_child, changes_stop, is_at, is_for, count_for, first_key, IsFound, IsIndex};

use crate::children::Stop;
use crate::slot::Slot;
use init_words::{Answer, Id, Memory};
use std::alloc::Allocator;

/// An item of an index: the key by which a record is found, and the id of the record.
#[derive(Clone, Copy)]
pub(crate) struct Keyed {
    pub(crate) key: u64,
    pub(crate) id: Id,
}

/// Returns the index item of the record's child, if it has one. The key is the child's number.
pub(crate) fn child_of(slot: &Slot) -> Option<Keyed>
    ensures { result ≡ child_of slot.now }
{
    let number = slot.child()?;
    Some(Keyed {
        key: u64::from(number.0),
        id: slot.id(),
    })
}

/// Returns the index item of the SIGTERM sent to the record's child, if that was the last signal. The key is its time.
pub(crate) fn termed_of(slot: &Slot) -> Option<Keyed>
    ensures { result ≡ termed_of slot.now }
{
    match slot.stop() {
        Some(Stop::Termed(time)) => Some(Keyed {
            key: time,
            id: slot.id(),
        }),
        _ => None,
    }
}

/// Returns whether the answer can change which child the id has.
pub(crate) fn changes_child(answer: &Answer) -> bool
    ensures { result ≡ changes_child answer.now }
{
    matches!(answer, Answer::Born(_) | Answer::Ended(_))
}

/// Returns whether the answer can change the stop of the id's child.
pub(crate) fn changes_stop(answer: &Answer) -> bool
    ensures { result ≡ changes_stop answer.now }
{
    matches!(answer, Answer::Born(_) | Answer::Ended(_) | Answer::Hit)
}

/// The result of a search for a key: no record has it, one record (with this id) has it, or several may have it.
pub(crate) enum Found {
    None,
    One(Id),
    Several,
}

/// Returns the position of the first item with this key or a greater one.
fn first_from(items: &[Keyed], key: u64) -> usize
    requires { are_sorted items.now ≡ true }
    ensures within { result ≤ length items.now }
    ensures point { IsPartitionPoint (λ (item : Keyed). nat_lt item.key key ≡ true)
        (λ (item : Keyed). nat_lt item.key key ≡ false) items.now result }
{
    items.partition_point(|item: &Keyed| item.key < key)
}

fn has_key(items: &[Keyed], position: usize, key: u64) -> bool
    ensures { result ≡ is_at key (slice_get items.now position) }
{
    match items.get(position) {
        Some(item) => item.key == key,
        None => false,
    }
}

/// Finds the records with the key, by binary search.
pub(crate) fn with_key(items: &[Keyed], key: u64) -> Found
    requires { are_sorted items.now ≡ true }
    ensures { IsFound key items.now result }
{
    let first = first_from(items, key);
    if !has_key(items, first, key) {
        return Found::None;
    }
    if has_key(items, first + 1, key) {
        return Found::Several;
    }
    Found::One(items[first].id)
}

/// Returns the smallest key, which is the key of the first item.
pub(crate) fn first_key(items: &[Keyed]) -> Option<u64>
    ensures { result ≡ first_key items.now }
{
    let item = items.first()?;
    Some(item.key)
}

/// Reserves room for the items of this many records.
pub(crate) fn make_room<A: Allocator>(
    items: &mut Vec<Keyed, A>,
    records: usize,
) -> Result<(), Memory>
    ensures items { items.new.items ≡ items.old.items }
    ensures room { OnOk result (records ≤ vec_capacity items.new) }
    ensures kept { vec_capacity items.old ≤ vec_capacity items.new }
{
    let missing = records.saturating_sub(items.len());
    items.reserve(missing)?;
    Ok(())
}

/// Returns whether the item at the position has this id.
fn is_for(items: &[Keyed], position: usize, id: &Id) -> bool
    ensures { result ≡ is_for id.now (slice_get items.now position) }
{
    match items.get(position) {
        Some(item) => *id == item.id,
        None => false,
    }
}

/// Removes the item of an id. `item` is that item, or `None` if the id has no item.
pub(crate) fn forget<A: Allocator>(items: &mut Vec<Keyed, A>, id: &Id, item: Option<Keyed>)
    requires sorted { are_sorted items.old.items ≡ true }
    requires one { count_for id.now items.old.items ≡ passes (λ _. true) item }
    ensures items { items.new.items ≡ without_id id.now items.old.items }
    ensures sorted { are_sorted items.new.items ≡ true }
    ensures room { vec_capacity items.new ≡ vec_capacity items.old }
{
    let Some(item) = item else {
        return;
    };
    let position = first_from(items.as_slice(), item.key);
    if position >= items.len() || !is_for(items.as_slice(), position, id) {
        items.retain(|item: &Keyed| item.id != *id);
        return;
    }
    let _ = items.remove(position);
}

/// Inserts an item, if there is one. There must be room for it, so this allocates no memory.
pub(crate) fn put<A: Allocator>(items: &mut Vec<Keyed, A>, item: Option<Keyed>)
    requires sorted { are_sorted items.old.items ≡ true }
    requires room { length items.old.items + passes (λ _. true) item
        ≤ vec_capacity items.old }
    ensures counts { (test : Keyed → Bool) → count_by test items.new.items
        ≡ count_by test items.old.items + passes test item }
    ensures sorted { are_sorted items.new.items ≡ true }
    ensures room { vec_capacity items.old ≤ vec_capacity items.new }
{
    if let Some(item) = item {
        // Items with the same key are usually removed in the order in which they were inserted, and `forget` looks at
        // the first of them.
        let position = first_from(items.as_slice(), item.key.saturating_add(1));
        if items.insert(position, item).is_err() {
            unreachable!()
        }
    }
}

/// Updates the index after an answer for an id: if the answer changes the id's item, `item` replaces `before`.
pub(crate) fn note<A: Allocator>(
    items: &mut Vec<Keyed, A>,
    id: &Id,
    moves: bool,
    before: Option<Keyed>,
    item: Option<Keyed>,
)
    requires sorted { are_sorted items.old.items ≡ true }
    requires one { count_for id.now items.old.items ≡ passes (λ _. true) before }
    requires room { length (without_id id.now items.old.items) + passes (λ _. true) item
        ≤ vec_capacity items.old }
    ensures counts { (test : Keyed → Bool) → count_by test items.new.items
        ≡ (if moves
        then count_by test (without_id id.now items.old.items) + passes test item
        else count_by test items.old.items) }
    ensures sorted { are_sorted items.new.items ≡ true }
    ensures room { vec_capacity items.old ≤ vec_capacity items.new }
{
    if moves {
        forget(items, id, before);
        put(items, item);
    }
}

/// Rebuilds the index of SIGTERM times. There must be room for one item per record, so this allocates no memory.
pub(crate) fn index_termed<A: Allocator>(items: &mut Vec<Keyed, A>, slots: &[Slot])
    requires { length slots.now ≤ vec_capacity items.old }
    ensures { IsIndex termed_of slots.now items.new }
{
    items.clear();
    for slot in slots {
        put(items, termed_of(slot));
    }
}

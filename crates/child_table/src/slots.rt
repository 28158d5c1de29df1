//! All records of init, in record order.

ghost use Rattle.std.specs.Prelude.{◌≡◌, ◌≤◌, ◌++◌, [], ◌∷◌, not, is_some, map, length, slice_get, option_copied, IfOk, IfSome, OnOk, OnErr, None, true};
ghost use Rattle.indexmap.specs.IndexMap.{keys, values};
ghost use Rattle.init_words.specs.declared.orders.OrderKind.{OrderKind};
ghost use Rattle.respawn_limit.specs.declared.TheConstants.{CLOCK_LIMIT};
ghost use Rattle.child_table.specs.Lists.{ids_of_records};
ghost use Rattle.child_table.specs.Indexing.{begun_among};

use crate::counts::{Counts, count_due, count_excluded, count_missed};
use crate::index::{
    Found, Keyed, changes_child, changes_stop, child_of, first_key, forget, index_termed,
    make_room, note, put, termed_of, with_key,
};
use crate::slot::Slot;
use indexmap::IndexMap;
use init_words::{Answer, ChildNumber, Id, Memory, OrderKind, Refusal, Stage};
use inittab_text::Table;
use std::alloc::{Allocator, Global};
use std::hash::{BuildHasherDefault, FoldHasher};
use std::marker::Model;

/// Init's records, one per id, in record order: first the ids in the table, then ids that have left the table but still
/// have a child. Contracts see them as a list.
///
/// All times passed to the methods are readings of one clock, in seconds, at most `CLOCK_LIMIT`.
#[derive(Drop)]
pub struct Slots<A: Allocator = Global> {
    records: IndexMap<Id, Slot, BuildHasherDefault<FoldHasher>, A>,
    counts: Counts,
    // The index of children by number, and the index of the children last sent SIGTERM, by its time. Both are sorted
    // and have room for one item per record.
    children: Vec<Keyed, A>,
    termed: Vec<Keyed, A>,
}

impl<A: Allocator> Model for Slots<A> {
    ghost use Rattle.std.specs.Prelude.{◌≡◌, List, true};
    ghost use Rattle.indexmap.specs.IndexMap.{keys, values};
    ghost use Rattle.respawn_limit.specs.declared.TheConstants.{CLOCK_LIMIT};
    ghost use Rattle.child_table.specs.State.{SlotState};
    ghost use Rattle.child_table.specs.Lists.{ids_of_records, are_distinct};
    ghost use Rattle.child_table.specs.Times.{are_timely};
    ghost use Rattle.child_table.specs.Counting.{counts_of};
    ghost use Rattle.child_table.specs.Indexing.{child_of, termed_of, IsIndex};

    ghost Value = { List SlotState };

    ghost view = { λ slots. values slots.records };

    ghost invariant = { λ slots. (keys slots.records ≡ ids_of_records (values slots.records))
        × (are_timely CLOCK_LIMIT (values slots.records) ≡ true)
        × (slots.counts ≡ counts_of (values slots.records))
        × IsIndex child_of (values slots.records) slots.children
        × IsIndex termed_of (values slots.records) slots.termed
        × (are_distinct (values slots.records) ≡ true) };
}

impl<A: Allocator + Copy> Slots<A> {
    /// Creates an empty list of records. This allocates no memory.
    pub(crate) fn empty(alloc: A) -> Slots<A>
        ensures { result ≡ [] }
    {
        Slots {
            records: IndexMap::new(alloc),
            counts: Counts::none(),
            children: Vec::new(alloc),
            termed: Vec::new(alloc),
        }
    }

    /// Creates an empty list of records with room for `room` of them.
    pub(crate) fn with_room(alloc: A, room: usize) -> Result<Slots<A>, Memory>
        ensures { IfOk result (λ slots. slots ≡ []) }
    {
        Ok(Slots {
            records: IndexMap::with_capacity(alloc, room)?,
            counts: Counts::none(),
            children: Vec::with_capacity(alloc, room)?,
            termed: Vec::with_capacity(alloc, room)?,
        })
    }

    /// Returns the allocator of the records.
    pub(crate) fn allocator(&self) -> A {
        *self.records.allocator()
    }
}

impl<A: Allocator> Slots<A> {
    ghost use Rattle.std.specs.List.{list_any};
    ghost use Rattle.child_table.specs.State.{SlotState};
    ghost use Rattle.child_table.specs.Lists.{are_distinct, record_by_id, has_record_of, can_ask, order_in, id_of_child, is_quiet, with_changed, without, refusal_of, is_over_in, after_answer_to};
    ghost use Rattle.child_table.specs.Times.{is_timely, are_timely};
    ghost use Rattle.child_table.specs.Changes.{after_order, after_hold, after_call, after_enter, after_nudge, after_answer};
    ghost use Rattle.child_table.specs.Judging.{after_judge};
    ghost use Rattle.child_table.specs.Stopping.{is_stop_due, IsFirstTermed};

    /// Returns the number of records. No id has two records, and no start or signal in them is later than
    /// `CLOCK_LIMIT`.
    pub fn len(&self) -> usize
        ensures value { result ≡ length self.now }
        ensures distinct { are_distinct self.now ≡ true }
        ensures timely { are_timely CLOCK_LIMIT self.now ≡ true }
    {
        self.records.len()
    }

    /// Returns the record at a position, counted from 0 in record order.
    pub fn at(&self, position: usize) -> Option<&Slot>
        ensures value { option_copied result ≡ slice_get self.now position }
        ensures timely { IfSome result (λ slot. is_timely CLOCK_LIMIT slot.now ≡ true) }
    {
        let (_, slot) = self.records.get_index(position)?;
        Some(slot)
    }

    /// Returns the records in record order. No id has two records.
    pub fn as_slice(&self) -> &[Slot]
        ensures value { result.now ≡ self.now }
        ensures distinct { are_distinct self.now ≡ true }
    {
        self.records.values().as_slice()
    }

    /// Returns the record of an id.
    pub fn by_id(&self, id: &Id) -> Option<&Slot>
        ensures value { option_copied result ≡ record_by_id id.now self.now }
        ensures timely { IfSome result (λ slot. is_timely CLOCK_LIMIT slot.now ≡ true) }
    {
        self.records.get(id)
    }

    /// Returns the position of the record of an id, counted from 0 in record order. No id has two.
    pub fn place_of(&self, id: &Id) -> Option<usize>
        ensures found { is_some result ≡ has_record_of id.now self.now }
        ensures position { IfSome result (λ position.
            slice_get self.now position ≡ record_by_id id.now self.now) }
        ensures distinct { are_distinct self.now ≡ true }
    {
        self.records.get_index_of(id)
    }

    /// Returns the id of the first record whose child has this number.
    pub fn by_child(&self, number: ChildNumber) -> Option<Id>
        ensures { result ≡ id_of_child number self.now }
    {
        match with_key(self.children.as_slice(), u64::from(number.0)) {
            Found::None => None,
            Found::One(id) => Some(id),
            // The system has reused the number, and init does not know yet that the earlier child with it has ended.
            Found::Several => self.first_with(number),
        }
    }

    fn first_with(&self, number: ChildNumber) -> Option<Id>
        ensures { result ≡ id_of_child number self.now }
    {
        let slot = self
            .records
            .values()
            .find(|slot| slot.child() == Some(number))?;
        Some(slot.id())
    }

    /// Returns whether no start and no signal is unanswered. A look may be.
    pub fn quiet(&self) -> bool
        ensures { result ≡ is_quiet self.now }
    {
        self.counts.busy == 0
    }

    /// Returns whether no order is open.
    pub fn is_idle(&self) -> bool
        ensures { result ≡ not (list_any (λ (slot : SlotState). is_some slot.order) self.now) }
    {
        self.counts.orders == 0
    }

    /// Returns whether some child must be stopped.
    pub fn has_excluded(&self) -> bool
        ensures { result ≡ list_any (λ (slot : SlotState). is_some slot.stop) self.now }
    {
        self.counts.excluded != 0
    }

    /// Returns whether some child must be stopped and no signal was sent to it yet.
    pub fn has_due(&self) -> bool
        ensures { result ≡ list_any (λ (slot : SlotState). is_stop_due slot.stop) self.now }
    {
        self.counts.due != 0
    }

    /// Returns the earliest time, in seconds, of a SIGTERM that was the last signal to a child.
    pub fn first_termed(&self) -> Option<u64>
        ensures { IsFirstTermed self.now result }
    {
        first_key(self.termed.as_slice())
    }

    /// Returns whether init may give the order for the id now. No order may be open. A start needs an entry without a
    /// child, and the respawn limit, if it applies, must allow the start; any other order needs a child.
    pub fn can_ask(&self, id: &Id, ask: OrderKind, now: u64) -> bool
        requires { now ≤ CLOCK_LIMIT }
        ensures { result ≡ can_ask id.now ask now self.now }
    {
        match self.by_id(id) {
            Some(slot) => slot.can_be_asked(ask, now),
            None => false,
        }
    }

    /// Records an order for an id, which `can_ask` must allow.
    pub fn ask(&mut self, id: Id, ask: OrderKind, now: u64)
        requires allowed { can_ask id ask now self.old ≡ true }
        requires limit { now ≤ CLOCK_LIMIT }
        requires timely { are_timely now self.old ≡ true }
        ensures { self.new ≡ with_changed id (after_order ask now) self.old }
    {
        let Some(slot) = self.records.get_mut(&id) else {
            unreachable!()
        };
        self.counts.subtract(Counts::of(slot));
        slot.note_order(ask, now);
        self.counts.add(Counts::of(slot));
    }

    /// Records an answer for an id, received at this time. If the child ended and the id is not in the table, this
    /// removes the record.
    ///
    /// Fails with `NotAsked` if no order is open for the id, and with `WrongAnswer` if its order is of another kind. If
    /// it fails, nothing changes.
    pub fn told(&mut self, id: Id, answer: Answer, now: u64) -> Result<(), Refusal>
        requires { now ≤ CLOCK_LIMIT }
        ensures told { OnOk result (self.new ≡ after_answer_to id answer now self.old) }
        ensures refused { result ≡ refusal_of (order_in id self.old) answer }
        ensures unchanged { OnErr result (self.new ≡ self.old) }
    {
        self.refusal(&id, &answer)?;
        self.note_told(id, answer, now);
        Ok(())
    }

    fn note_told(&mut self, id: Id, answer: Answer, now: u64)
        requires known { has_record_of id self.old ≡ true }
        requires limit { now ≤ CLOCK_LIMIT }
        ensures { self.new ≡ after_answer_to id answer now self.old }
    {
        if self.is_over(&id, &answer) {
            self.remove(id);
        } else {
            self.note_answer(id, answer, now);
        }
    }

    /// Returns the reason for which an answer for the id is rejected, or `Ok` if it is accepted.
    fn refusal(&self, id: &Id, answer: &Answer) -> Result<(), Refusal>
        ensures { result ≡ refusal_of (order_in id.now self.now) answer.now }
    {
        let Some(slot) = self.by_id(id) else {
            return Err(Refusal::NotAsked);
        };
        let Some(ask) = slot.order() else {
            return Err(Refusal::NotAsked);
        };
        if answer.answers(ask) {
            Ok(())
        } else {
            Err(Refusal::WrongAnswer)
        }
    }

    /// Returns whether the answer ends the record of the id.
    fn is_over(&self, id: &Id, answer: &Answer) -> bool
        ensures { result ≡ is_over_in id.now answer.now self.now }
    {
        match self.by_id(id) {
            Some(slot) => slot.is_over(*answer),
            None => false,
        }
    }

    fn note_answer(&mut self, id: Id, answer: Answer, now: u64)
        requires known { has_record_of id self.old ≡ true }
        requires limit { now ≤ CLOCK_LIMIT }
        ensures { self.new ≡ with_changed id (after_answer answer now) self.old }
    {
        let Some(slot) = self.records.get_mut(&id) else {
            unreachable!()
        };
        self.counts.subtract(Counts::of(slot));
        let old_child = child_of(slot);
        let old_termed = termed_of(slot);
        slot.note_answer(answer, now);
        self.counts.add(Counts::of(slot));
        let child = child_of(slot);
        let termed = termed_of(slot);
        note(
            &mut self.children,
            &id,
            changes_child(&answer),
            old_child,
            child,
        );
        note(
            &mut self.termed,
            &id,
            changes_stop(&answer),
            old_termed,
            termed,
        );
    }

    fn remove(&mut self, id: Id)
        ensures { self.new ≡ without id self.old }
    {
        if let Some(slot) = self.records.shift_remove(&id) {
            self.counts.subtract(Counts::of(&slot));
            forget(&mut self.children, &id, child_of(&slot));
            forget(&mut self.termed, &id, termed_of(&slot));
        }
    }

    /// Begins a hold of an entry that respawns too fast (init(8)). The id must have a record.
    pub fn hold(&mut self, id: Id, now: u64)
        requires known { has_record_of id self.old ≡ true }
        requires limit { now ≤ CLOCK_LIMIT }
        ensures { self.new ≡ with_changed id (after_hold now) self.old }
    {
        let Some(slot) = self.records.get_mut(&id) else {
            unreachable!()
        };
        slot.note_hold(now);
    }

    /// Records that a letter or a power event called an entry. The id must have a record.
    pub fn called(&mut self, id: Id)
        requires known { has_record_of id self.old ≡ true }
        ensures { self.new ≡ with_changed id after_call self.old }
    {
        let Some(slot) = self.records.get_mut(&id) else {
            unreachable!()
        };
        slot.note_call();
    }

    /// Records that init entered a stage: this clears the starts, calls and holds of all records.
    pub fn entered(&mut self)
        ensures { self.new ≡ map after_enter self.old }
    {
        // All records are kept: the contract of `retain` states what is written to each of them; that of `values_mut`
        // does not.
        self.records.retain(
            |_id: &Id, slot: &mut Slot| -> bool
                ensures { (result ≡ true) × (slot.new ≡ after_enter slot.old) }
            {
                slot.note_enter();
                true
            },
        );
    }

    /// Records that a round began: init may look at each child, and may repeat a signal that missed a child.
    pub fn nudge(&mut self)
        ensures { self.new ≡ map after_nudge self.old }
    {
        // If no signal missed a child, a round concerns only the records with a child. If they are few, the index finds
        // them; otherwise this visits all records in order, which costs less per record.
        if self.counts.missed == 0 && self.children.len() < self.records.len() / 8 {
            nudge_of(&mut self.records, self.children.as_slice());
            return;
        }
        self.records.retain(
            |_id: &Id, slot: &mut Slot| -> bool
                ensures { (result ≡ true) × (slot.new ≡ after_nudge slot.old) }
            {
                slot.note_nudge();
                true
            },
        );
        self.counts.missed = 0;
    }

    /// Judges the children by the table and the stage: marks the excluded ones for stopping, and no others.
    pub fn judge(&mut self, table: &Table<A>, stage: Stage)
        ensures { self.new ≡ map (after_judge table.now stage) self.old }
    {
        self.records.retain(
            |_id: &Id, slot: &mut Slot| -> bool
                ensures { (result ≡ true)
                    × (slot.new ≡ after_judge table.entry.now stage slot.old) }
            {
                slot.judge(table, stage);
                true
            },
        );
        let slots = self.records.values().as_slice();
        self.counts.excluded = count_excluded(slots);
        self.counts.due = count_due(slots);
        self.counts.missed = count_missed(slots);
        index_termed(&mut self.termed, slots);
    }

    /// Appends the record of an id that has none.
    pub(crate) fn push(&mut self, slot: Slot) -> Result<(), Memory>
        requires new { record_by_id slot.id self.old ≡ None }
        requires timely { is_timely CLOCK_LIMIT slot ≡ true }
        ensures pushed { OnOk result (self.new ≡ self.old ++ slot ∷ []) }
        ensures unchanged { OnErr result (self.new ≡ self.old) }
    {
        let id = slot.id();
        let counts = Counts::of(&slot);
        let child = child_of(&slot);
        let termed = termed_of(&slot);
        let records = self.records.len() + 1;
        make_room(&mut self.children, records)?;
        make_room(&mut self.termed, records)?;
        self.records.insert(id, slot)?;
        self.counts.add(counts);
        put(&mut self.children, child);
        put(&mut self.termed, termed);
        Ok(())
    }
}

/// Begins a round for the records to which these index items refer.
fn nudge_of<A: Allocator>(
    records: &mut IndexMap<Id, Slot, BuildHasherDefault<FoldHasher>, A>,
    items: &[Keyed],
)
    requires { keys records.old ≡ ids_of_records (values records.old) }
    ensures values { values records.new ≡ map (begun_among items.now) (values records.old) }
    ensures own { keys records.new ≡ ids_of_records (values records.new) }
{
    for item in items {
        if let Some(slot) = records.get_mut(&item.id) {
            slot.note_nudge();
        }
    }
}

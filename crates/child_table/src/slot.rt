//! The record of one inittab entry: its child, its open order, its starts, its hold.

ghost use Rattle.std.specs.Prelude.{◌≡◌, ◌≤◌, length, is_some, true, option_copied};
ghost use Rattle.std.specs.List.Sorted.{IsNonDecreasing};
ghost use Rattle.respawn_limit.specs.declared.TheConstants.{STARTS, CLOCK_LIMIT};
ghost use Rattle.respawn_limit.specs.Window.{may_of, is_held};
ghost use Rattle.child_table.specs.Judging.{is_excluded};
ghost use Rattle.child_table.specs.Changes.{after_hit};

use crate::children::{KnownChild, Stop};
use init_words::{Act, Answer, ChildNumber, Entry, Id, OrderKind, Stage, Status, lives};
use inittab_text::Table;
use respawn_limit::{Limiter, May};
use std::alloc::Allocator;
use std::marker::Model;

/// The state that init keeps for one id.
#[derive(Drop)]
pub struct Slot {
    id: Id,
    table_act: Option<Act>,
    child: Option<KnownChild>,
    order: Option<OrderKind>,
    stop: Option<Stop>,
    asked: bool,
    called: bool,
    look: bool,
    missed: bool,
    limiter: Limiter,
    last: Option<Status>,
}

impl Model for Slot {
    ghost use Rattle.child_table.specs.State.{SlotState};

    ghost Value = { SlotState };

    ghost view = { λ slot. record {
      id = slot.id;
      table_act = slot.table_act;
      child = slot.child;
      order = slot.order;
      stop = slot.stop;
      asked = slot.asked;
      called = slot.called;
      look = slot.look;
      missed = slot.missed;
      limiter = slot.limiter;
      last = slot.last;
    } };
}

impl Slot {
    ghost use Rattle.child_table.specs.State.{child_number, birth_act, is_limited_record, stays_called_record};

    /// Creates a record from the values that its methods return. This allocates no memory.
    pub fn of(
        id: Id,
        table_act: Option<Act>,
        child: Option<KnownChild>,
        order: Option<OrderKind>,
        stop: Option<Stop>,
        asked: bool,
        called: bool,
        look: bool,
        missed: bool,
        starts: &[u64],
        held_until: Option<u64>,
        last: Option<Status>,
    ) -> Slot
        requires few { length starts.now ≤ STARTS }
        requires ordered { IsNonDecreasing starts.now }
        ensures { result ≡ record {
          id = id;
          table_act = table_act;
          child = child;
          order = order;
          stop = stop;
          asked = asked;
          called = called;
          look = look;
          missed = missed;
          limiter = record { starts = starts.now; held = held_until };
          last = last;
        } }
    {
        Slot {
            id,
            table_act,
            asked,
            called,
            look,
            missed,
            child,
            order,
            stop,
            limiter: Limiter::of(starts, held_until),
            last,
        }
    }

    /// Returns the id of inittab(5) to which the record belongs.
    pub fn id(&self) -> Id
        ensures { result ≡ self.now.id }
    {
        self.id
    }

    /// Returns the table's action for the id, or `None` if the id is not in the table.
    pub fn table_act(&self) -> Option<Act>
        ensures { result ≡ self.now.table_act }
    {
        self.table_act
    }

    /// Returns the number of the child.
    pub fn child(&self) -> Option<ChildNumber>
        ensures { result ≡ child_number self.now }
    {
        match self.child {
            Some(child) => Some(child.number),
            None => None,
        }
    }

    /// Returns whether the record has a child.
    pub fn has_child(&self) -> bool
        ensures { result ≡ is_some self.now.child }
    {
        self.child.is_some()
    }

    /// Returns the action that the table had for the id when the child was born.
    pub fn act(&self) -> Option<Act>
        ensures { result ≡ birth_act self.now }
    {
        self.child?.act
    }

    /// Returns the order that init has not received an answer to.
    pub fn order(&self) -> Option<OrderKind>
        ensures { result ≡ self.now.order }
    {
        self.order
    }

    /// Returns the progress of stopping the child, or `None` if the child need not be stopped.
    pub fn stop(&self) -> Option<Stop>
        ensures { result ≡ self.now.stop }
    {
        self.stop
    }

    /// Returns whether a start was ordered since the stage was entered or the entry was read.
    pub fn asked(&self) -> bool
        ensures { result ≡ self.now.asked }
    {
        self.asked
    }

    /// Returns whether a letter or a power event has called the entry, and no start has ended that call.
    pub fn called(&self) -> bool
        ensures { result ≡ self.now.called }
    {
        self.called
    }

    /// Returns whether a round has begun since the child was born or since the last look at it.
    pub fn look(&self) -> bool
        ensures { result ≡ self.now.look }
    {
        self.look
    }

    /// Returns whether a signal could not be sent to the child and no round has begun since then.
    pub fn missed(&self) -> bool
        ensures { result ≡ self.now.missed }
    {
        self.missed
    }

    /// Returns the times of the last starts that the respawn limit counts, in seconds, oldest first: at most ten.
    pub fn starts(&self) -> &[u64]
        ensures value { result.now ≡ self.now.limiter.starts }
        ensures few { length result.now ≤ STARTS }
        ensures ordered { IsNonDecreasing result.now }
    {
        self.limiter.starts()
    }

    /// Returns the end of the last hold, in seconds, even if it has passed.
    pub fn held_until(&self) -> Option<u64>
        ensures { result ≡ self.now.limiter.held }
    {
        self.limiter.held_until()
    }

    /// Returns the wait status of the last child of the record, or `None` if no child has ended.
    pub fn last(&self) -> Option<Status>
        ensures { result ≡ self.now.last }
    {
        self.last
    }

    /// Returns whether the entry is held now: the time, in seconds, is before the end of the last hold.
    pub fn held(&self, now: u64) -> bool
        ensures { result ≡ is_held self.now.limiter.held now }
    {
        self.limiter.held(now)
    }

    /// Returns whether the respawn limit allows a start now, at a time in seconds, and if not, until when it must wait
    /// (init(8)).
    pub fn may(&self, now: u64) -> May
        requires { now ≤ CLOCK_LIMIT }
        ensures { result ≡ may_of self.now.limiter now }
    {
        self.limiter.may(now)
    }

    /// Returns whether the respawn limit applies to the entry (init(8)).
    pub fn is_limited(&self) -> bool
        ensures { result ≡ is_limited_record self.now }
    {
        match self.table_act {
            Some(act) => act.is_limited(),
            None => false,
        }
    }

    /// Returns whether the entry stays called when it is started.
    pub(crate) fn stays_called(&self) -> bool
        ensures { result ≡ stays_called_record self.now }
    {
        match self.table_act {
            Some(act) => act.stays_called(),
            None => false,
        }
    }
}

// The changes that the methods of `Slots` make to one record.
impl Slot {
    ghost use Rattle.child_table.specs.State.{SlotState, new_record};
    ghost use Rattle.child_table.specs.Times.{is_timely};
    ghost use Rattle.child_table.specs.Changes.{can_be_asked, after_order, after_hold, after_call, after_enter, after_nudge, after_answer, is_over};
    ghost use Rattle.child_table.specs.Judging.{after_judge};
    ghost use Rattle.child_table.specs.Lists.{is_busy};
    ghost use Rattle.child_table.specs.Stopping.{is_stop_due};
    ghost use Rattle.child_table.specs.Adopting.{adopted, left_over, is_left_over};

    /// Creates the record of an entry before any order.
    pub(crate) fn new(entry: &Entry) -> Slot
        ensures { result ≡ new_record entry.now }
    {
        Slot {
            id: entry.id,
            table_act: Some(entry.act),
            child: None,
            order: None,
            stop: None,
            asked: false,
            called: false,
            look: false,
            missed: false,
            limiter: Limiter::new(),
            last: None,
        }
    }

    /// Returns whether init may give the order for the record now.
    pub(crate) fn can_be_asked(&self, ask: OrderKind, now: u64) -> bool
        requires { now ≤ CLOCK_LIMIT }
        ensures { result ≡ can_be_asked ask now self.now }
    {
        match ask {
            OrderKind::Start => self.can_be_started(now),
            OrderKind::Look | OrderKind::Term | OrderKind::Kill => self.order.is_none()
                && self.child.is_some(),
        }
    }

    fn can_be_started(&self, now: u64) -> bool
        requires { now ≤ CLOCK_LIMIT }
        ensures { result ≡ can_be_asked OrderKind.Start now self.now }
    {
        self.order.is_none()
            && self.table_act.is_some()
            && self.child.is_none()
            && (!self.is_limited() || self.may(now) == May::Yes)
    }

    pub(crate) fn note_order(&mut self, ask: OrderKind, now: u64)
        requires allowed { can_be_asked ask now self.old ≡ true }
        requires limit { now ≤ CLOCK_LIMIT }
        requires timely { is_timely now self.old ≡ true }
        ensures { self.new ≡ after_order ask now self.old }
    {
        self.order = Some(ask);
        match ask {
            OrderKind::Start => {
                self.asked = true;
                self.called = self.stays_called() && self.called;
                if self.is_limited() {
                    self.limiter.note(now);
                }
            }
            OrderKind::Look => self.look = false,
            OrderKind::Term | OrderKind::Kill => {}
        }
    }

    pub(crate) fn note_hold(&mut self, now: u64)
        requires { now ≤ CLOCK_LIMIT }
        ensures { self.new ≡ after_hold now self.old }
    {
        self.limiter.hold(now);
    }

    pub(crate) fn note_call(&mut self)
        ensures { self.new ≡ after_call self.old }
    {
        self.called = true;
    }

    pub(crate) fn note_enter(&mut self)
        ensures { self.new ≡ after_enter self.old }
    {
        self.asked = false;
        self.called = false;
        self.limiter.clear();
    }

    pub(crate) fn note_nudge(&mut self)
        ensures { self.new ≡ after_nudge self.old }
    {
        self.look = self.child.is_some() || self.look;
        self.missed = false;
    }

    pub(crate) fn note_answer(&mut self, answer: Answer, now: u64)
        ensures { self.new ≡ after_answer answer now self.old }
    {
        let order = self.order;
        self.order = None;
        match answer {
            Answer::Born(number) => {
                self.child = Some(KnownChild {
                    number,
                    act: self.table_act,
                });
                self.stop = None;
                self.look = false;
            }
            Answer::Ended(status) => {
                self.child = None;
                self.stop = None;
                self.look = false;
                self.missed = false;
                self.last = Some(status);
            }
            Answer::Hit => {
                self.stop = after_hit(order, now, self.stop);
                self.missed = false;
            }
            Answer::Miss => self.missed = true,
            Answer::NotBorn | Answer::Alive | Answer::NoLook => {}
        }
    }

    /// Returns whether the open order is a start or a signal.
    pub(crate) fn is_busy(&self) -> bool
        ensures { result ≡ is_busy self.now.order }
    {
        match self.order {
            None | Some(OrderKind::Look) => false,
            Some(OrderKind::Start | OrderKind::Term | OrderKind::Kill) => true,
        }
    }

    /// Returns whether the child must be stopped and no signal was sent to it yet.
    pub(crate) fn is_due(&self) -> bool
        ensures { result ≡ is_stop_due self.now.stop }
    {
        matches!(self.stop, Some(Stop::Due))
    }

    /// Returns whether the answer ends the record: its child ended, and the table does not have its id.
    pub(crate) fn is_over(&self, answer: Answer) -> bool
        ensures { result ≡ is_over answer self.now }
    {
        match answer {
            Answer::Ended(_) => self.table_act.is_none(),
            _ => false,
        }
    }

    pub(crate) fn judge<A: Allocator>(&mut self, table: &Table<A>, stage: Stage)
        ensures { self.new ≡ after_judge table.now stage self.old }
    {
        let Some(child) = self.child else {
            return;
        };
        if is_excluded(child.act, table.get(&self.id), stage) {
            self.stop = self.stop.or(Some(Stop::Due));
        } else {
            self.stop = None;
            self.missed = false;
        }
    }

    /// Creates the record of an entry of a new table from the previous record of its id, if there is one.
    pub(crate) fn adopted(entry: &Entry, before: Option<&Slot>) -> Slot
        ensures { result ≡ adopted entry.now (option_copied before.entry) }
    {
        let Some(slot) = before else {
            return Slot::new(entry);
        };
        Slot {
            id: entry.id,
            table_act: Some(entry.act),
            child: slot.child,
            order: slot.order,
            stop: slot.stop,
            asked: slot.asked && slot.table_act == Some(entry.act),
            called: false,
            look: slot.look,
            missed: slot.missed,
            limiter: Limiter::new(),
            last: slot.last,
        }
    }

    /// Returns whether the new table has no entry for the record, which is kept because it has a child.
    pub(crate) fn is_left_over<A: Allocator>(&self, table: &Table<A>) -> bool
        ensures { result ≡ is_left_over table.now self.now }
    {
        self.child.is_some() && table.get(&self.id).is_none()
    }

    /// Returns the record without an entry.
    pub(crate) fn left_over(&self) -> Slot
        ensures { result ≡ left_over self.now }
    {
        Slot {
            id: self.id,
            table_act: None,
            child: self.child,
            order: self.order,
            stop: self.stop,
            asked: false,
            called: false,
            look: self.look,
            missed: self.missed,
            limiter: Limiter::new(),
            last: self.last,
        }
    }
}

/// Returns the stop of a child after the signal of the open order was sent.
fn after_hit(order: Option<OrderKind>, now: u64, stop: Option<Stop>) -> Option<Stop>
    ensures { result ≡ after_hit order now stop }
{
    match order {
        Some(OrderKind::Term) => Some(Stop::Termed(now)),
        Some(OrderKind::Kill) => Some(Stop::Killed(now)),
        _ => stop,
    }
}

/// Returns whether a child born with this action must be stopped: its id has no entry, or the entry has another action
/// or does not let its child live in the stage.
pub fn is_excluded(born: Option<Act>, found: Option<&Entry>, stage: Stage) -> bool
    ensures { result ≡ is_excluded stage born (option_copied found.entry) }
{
    match found {
        None => true,
        Some(entry) => !(born == Some(entry.act) && lives(entry, stage)),
    }
}

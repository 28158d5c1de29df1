//! Running counts of records, so that no step has to count them again.

ghost use Rattle.std.specs.Prelude.{◌≡◌, [], ◌∷◌, is_some};
ghost use Rattle.std.specs.List.{count_by};
ghost use Rattle.child_table.specs.State.{SlotState};
ghost use Rattle.child_table.specs.Counting.{counts_of, plus, minus, IsWithin, AreSmall};
ghost use Rattle.child_table.specs.Stopping.{is_stop_due};

use crate::slot::Slot;

/// Counts of the records with an open order, a child to stop, and so on.
#[derive(Clone, Copy)]
pub(crate) struct Counts {
    /// Records with an open order.
    pub(crate) orders: usize,
    /// Records whose open order is a start or a signal.
    pub(crate) busy: usize,
    /// Records whose child must be stopped.
    pub(crate) excluded: usize,
    /// Records whose child must be stopped and was sent no signal yet.
    pub(crate) due: usize,
    /// Records whose child the last signal missed.
    pub(crate) missed: usize,
}

impl Counts {
    /// Returns the counts for no records.
    pub(crate) fn none() -> Counts
        ensures { result ≡ counts_of [] }
    {
        Counts {
            orders: 0,
            busy: 0,
            excluded: 0,
            due: 0,
            missed: 0,
        }
    }

    /// Returns the counts for one record.
    pub(crate) fn of(slot: &Slot) -> Counts
        ensures { result ≡ counts_of (slot.now ∷ []) }
    {
        Counts {
            orders: usize::from(slot.order().is_some()),
            busy: usize::from(slot.is_busy()),
            excluded: usize::from(slot.stop().is_some()),
            due: usize::from(slot.is_due()),
            missed: usize::from(slot.missed()),
        }
    }

    pub(crate) fn add(&mut self, more: Counts)
        requires { AreSmall (plus self.old more) }
        ensures { self.new ≡ plus self.old more }
    {
        self.orders += more.orders;
        self.busy += more.busy;
        self.excluded += more.excluded;
        self.due += more.due;
        self.missed += more.missed;
    }

    pub(crate) fn subtract(&mut self, less: Counts)
        requires { IsWithin less self.old }
        ensures { self.new ≡ minus self.old less }
    {
        self.orders -= less.orders;
        self.busy -= less.busy;
        self.excluded -= less.excluded;
        self.due -= less.due;
        self.missed -= less.missed;
    }
}

/// Returns the number of children that must be stopped.
pub(crate) fn count_excluded(slots: &[Slot]) -> usize
    ensures { result ≡ count_by (λ (slot : SlotState). is_some slot.stop) slots.now }
{
    slots.iter().filter(|slot| slot.stop().is_some()).count()
}

/// Returns the number of children that the last signal missed.
pub(crate) fn count_missed(slots: &[Slot]) -> usize
    ensures { result ≡ count_by (λ (slot : SlotState). slot.missed) slots.now }
{
    slots.iter().filter(|slot| slot.missed()).count()
}

/// Returns the number of children that must be stopped and were sent no signal yet.
pub(crate) fn count_due(slots: &[Slot]) -> usize
    ensures { result ≡ count_by (λ (slot : SlotState). is_stop_due slot.stop) slots.now }
{
    slots.iter().filter(|slot| slot.is_due()).count()
}

//! The state of the checker between two happenings.

ghost use Rattle.std.specs.Prelude.{◌≡◌, OnOk, OnErr};

use crate::children::{UnreapedChild, take_child};
use crate::limits::{Starts, take_hold, take_start};
use crate::maps::{ById, Ids, empty_map, no_ids, room_for, room_for_one};
use crate::parts::{
    grace_after, stage_after, take_asked, take_called, take_kept, take_order, take_sent, time_after,
};
use crate::spells::take_term;
use init_words::{Memory, OrderKind, Stage};
use inittab_text::Table;
use std::alloc::Allocator;
use std::marker::Model;
use trace_events::HappeningIn;

/// The state of the checker between two happenings: everything that the laws depend on, except the table.
///
/// `kept`, `asked` and `called` are the ids that have a kept child, were asked, and have a called entry. `sent` are the
/// ids that were sent a TERM that init has not learned of. `termed` has, for each id, the time at which init learned
/// of the first TERM in the spell of the id's child.
#[derive(Drop)]
pub(crate) struct Judge<A: Allocator> {
    pub(crate) stage: Option<Stage>,
    pub(crate) grace: u16,
    pub(crate) time: u64,
    pub(crate) orders: ById<OrderKind, A>,
    pub(crate) kept: Ids<A>,
    pub(crate) asked: Ids<A>,
    pub(crate) called: Ids<A>,
    pub(crate) sent: Ids<A>,
    pub(crate) starts: ById<Starts, A>,
    pub(crate) holds: ById<u64, A>,
    pub(crate) children: ById<UnreapedChild, A>,
    pub(crate) termed: ById<u64, A>,
}

impl<A: Allocator> Model for Judge<A> {
    ghost use Rattle.trace_check.specs.State.{JudgeState};

    ghost Value = { JudgeState };

    ghost view = { λ j. record {
      stage = j.stage;
      grace = j.grace;
      time = j.time;
      orders = j.orders.entries;
      kept = j.kept.keys;
      asked = j.asked.keys;
      called = j.called.keys;
      sent = j.sent.keys;
      starts = j.starts.entries;
      holds = j.holds.entries;
      children = j.children.entries;
      termed = j.termed.entries;
    } };
}

impl<A: Allocator + Copy> Judge<A> {
    ghost use Rattle.trace_check.specs.State.{opening};
    ghost use Rattle.trace_check.specs.After.{StateAfterHappening};

    /// Creates the state before the first happening. This allocates no memory.
    pub(crate) fn new(alloc: A) -> Judge<A>
        ensures { result ≡ opening }
    {
        Judge {
            stage: None,
            grace: 0,
            time: 0,
            orders: empty_map(alloc),
            kept: no_ids(alloc),
            asked: no_ids(alloc),
            called: no_ids(alloc),
            sent: no_ids(alloc),
            starts: empty_map(alloc),
            holds: empty_map(alloc),
            children: empty_map(alloc),
            termed: empty_map(alloc),
        }
    }

    /// Updates the state for a happening, given the table in force before it. If memory allocation fails, the state is
    /// unchanged.
    pub(crate) fn take<B: Allocator>(
        &mut self,
        table: &Table<A>,
        happening: &HappeningIn<B>,
    ) -> Result<(), Memory>
        ensures ok { OnOk result (StateAfterHappening table.now self.old self.new happening.now) }
        ensures err { OnErr result (self.new ≡ self.old) }
    {
        room_for_one(&mut self.orders)?;
        room_for(&mut self.kept, 1)?;
        room_for(&mut self.asked, 1)?;
        room_for(&mut self.sent, 1)?;
        room_for_one(&mut self.starts)?;
        room_for_one(&mut self.holds)?;
        room_for_one(&mut self.children)?;
        room_for_one(&mut self.termed)?;
        let stage = self.stage;
        let time = self.time;
        take_called(&mut self.called, table, stage, happening)?;
        take_term(
            &mut self.termed,
            &self.children,
            &self.sent,
            table,
            stage,
            time,
            happening,
        );
        take_sent(&mut self.sent, &self.orders, happening);
        take_kept(&mut self.kept, &self.children, happening);
        take_child(&mut self.children, table, happening);
        take_order(&mut self.orders, happening);
        take_asked(&mut self.asked, table, happening);
        take_start(&mut self.starts, time, happening);
        take_hold(&mut self.holds, time, happening);
        self.stage = stage_after(happening, stage);
        self.grace = grace_after(happening, self.grace);
        self.time = time_after(happening, time);
        Ok(())
    }
}

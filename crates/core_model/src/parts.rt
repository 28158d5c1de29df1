//! The state of a core as plain values: they are saved as text, and a core can be rebuilt from them.

ghost use Rattle.std.specs.Prelude.{◌≡◌};
ghost use Rattle.core_model.specs.Parts.{record_of};
ghost use Rattle.core_model.specs.State.{opening_fields};

use arrayvec::ArrayVec;
use child_table::{Slot, Stop};
use init_words::{Act, ChildNumber, Id, OrderKind, Stage, Status};
use inittab_text::Table;
use respawn_limit::STARTS;
use std::alloc::{Allocator, Global};
use std::marker::Model;
use trace_events::{CallSet, Goal};

/// The state of init, without its table and its records.
#[derive(Clone, Copy)]
pub struct CoreFields {
    /// The number of times that init was re-executed.
    pub generation: u64,
    /// The time, in seconds.
    pub time: u64,
    /// The stage in force, or `None` before the first stage.
    pub stage: Option<Stage>,
    /// The seconds between SIGTERM and SIGKILL.
    pub grace: u16,
    pub goal: Goal,
    /// Whether the stage Boot was entered.
    pub booted: bool,
    /// Whether the runlevel was announced settled.
    pub announced: bool,
    /// Whether init has yet to read inittab again.
    pub reread: bool,
    /// Whether init has yet to re-execute itself.
    pub reexec: bool,
    /// The pending request for another runlevel.
    pub level_wish: Option<Goal>,
    /// The pending power events and letters.
    pub pending: CallSet,
}

impl CoreFields {
    /// Returns the fields of a new core with this goal: no stage yet, and no pending request.
    pub fn opening(goal: Goal) -> CoreFields
        ensures { result ≡ opening_fields goal }
    {
        CoreFields {
            generation: 0,
            time: 0,
            stage: None,
            grace: 0,
            goal,
            booted: false,
            announced: false,
            reread: false,
            reexec: false,
            level_wish: None,
            pending: CallSet::default(),
        }
    }
}

/// The state that init keeps for one id.
#[derive(Drop)]
pub struct PlainSlot {
    pub id: Id,
    /// The number of the child.
    pub child: Option<ChildNumber>,
    /// The action that the table had for the id when the child was born.
    pub act: Option<Act>,
    /// The order that init has not received an answer to.
    pub order: Option<OrderKind>,
    /// The progress of stopping the child.
    pub stop: Option<Stop>,
    pub asked: bool,
    pub called: bool,
    pub look: bool,
    pub missed: bool,
    /// The end of the last hold, in seconds.
    pub held_until: Option<u64>,
    /// The times of the last starts, in seconds.
    pub starts: ArrayVec<u64, STARTS>,
    /// How the last child of the id ended, if init was told of an end.
    pub last: Option<Status>,
}

impl PlainSlot {
    /// Returns the plain values of a record.
    pub fn of(slot: &Slot) -> PlainSlot
        ensures { result ≡ record_of slot.now }
    {
        let mut starts = ArrayVec::new();
        if starts.try_extend_from_slice(slot.starts()).is_err() {
            unreachable!()
        }
        PlainSlot {
            id: slot.id(),
            child: slot.child(),
            act: slot.act(),
            order: slot.order(),
            stop: slot.stop(),
            asked: slot.asked(),
            called: slot.called(),
            look: slot.look(),
            missed: slot.missed(),
            held_until: slot.held_until(),
            starts,
            last: slot.last(),
        }
    }
}

/// The state of init as plain values: they are saved as text, and a core can be rebuilt from them.
#[derive(Drop)]
pub struct Parts<A: Allocator = Global> {
    pub fields: CoreFields,
    pub table: Table<A>,
    /// The records, in record order.
    pub records: Vec<PlainSlot, A>,
}

impl<A: Allocator> Model for Parts<A> {
    ghost use Rattle.core_model.specs.Parts.{SavedState};

    ghost Value = { SavedState };

    ghost view = { λ parts. record {
      fields = parts.fields;
      table = parts.table;
      records = parts.records.items;
    } };
}

//! A run from its start.

ghost use Rattle.std.specs.Prelude.{◌≡◌, ◌≤◌, ◌<◌, List, Option, not, true, IfOk};
ghost use Rattle.supervisor.specs.Words.{is_drained, opening_goal, opening_state, Entry, Level};
ghost use Rattle.supervisor.specs.Arriving.{AreObservedTurns};
ghost use Rattle.supervisor.specs.Opening.{IsStartOver, MadeTurnsFromStart};

use crate::edges::Edge;
use crate::serving::{Served, TurnObserver, serve};
use host_calls::Host;
use init_words::{Level, Memory};
use inittab_text::Table;
use level_core::Core;
use std::alloc::{Allocator, Global};
use std::marker::Model;
use trace_events::{Happening, HappeningIn};
use trace_log::Log;

/// Init at the start of a run: its core, and the first happening for the log, which is the table in force. The core is
/// on the heap, so an `Opening` is small.
#[derive(Drop)]
pub struct Opening<A: Allocator = Global> {
    core: Box<Core<A>, A>,
    told: HappeningIn<A>,
}

impl<A: Allocator> Model for Opening<A> {
    ghost use Rattle.supervisor.specs.Opening.{StartState};

    ghost Value = { StartState };

    ghost view = { λ o. record { core = o.core.value; told = o.told } };
}

impl<A: Allocator + Copy> Opening<A> {
    /// Creates an opening with this table in force. The goal is the given level, or else the default level of the
    /// table, or else S. This allocates all the memory that an opening needs.
    pub fn new(alloc: A, table: Table<A>, level: Option<Level>) -> Result<Opening<A>, Memory>
        ensures { IfOk result (IsStartOver level table) }
    {
        let _entries = table.len();
        let told: HappeningIn<A> = Happening::NewTable(table.copy(alloc)?);
        let core = core_over(alloc, table, level)?;
        Ok(Opening { core, told })
    }

    /// Makes up to the given number of turns from the start of the run, and returns how the run ended, and init's core.
    ///
    /// The log receives the table in force first. With `drain`, the run ends after the first turn that leaves init
    /// nothing to do and no child. With `strict`, a reread of inittab fails if one of its lines is faulty.
    pub fn serve<H: Host, L: Log, W: TurnObserver<A>>(
        self,
        alloc: A,
        edge: &mut Edge<H, L>,
        turns: u64,
        drain: bool,
        strict: bool,
        watch: &mut W,
    ) -> (Served, Box<Core<A>, A>)
        // The calls to the host form `result.0.turns` turns from the start of the run; if the host records its calls,
        // these are the recorded ones. Suppose that the answers were possible (`is_allowed`). Then each text handed
        // over represents init's state. Suppose also that the host returned these texts in a permitted way: unchanged,
        // cut short, replaced by a text of another generation, or not at all. Then init was allowed to make each call
        // at its point, and the trace is sound and breaks no law; this also holds up to each single call, unless the
        // next call announces its outcome, whatever the later answers. The core observed after each turn tracks the
        // trace so far. The returned core tracks the whole trace, and the children in its records, corrected for the
        // answers not yet told to init, are the unreaped children. The log accepted the trace from its start, or, if it
        // failed, the part before its failure; at each call, it had accepted everything up to that moment, or had
        // failed. The level is settled after rounds of turns in which init reads no table and receives no request that
        // it does not ignore, if at least as many rounds were undisturbed as were to come (`SettlesWithin`).
        ensures trace { (level : Option Level) (table : List Entry) → IsStartOver level table self
            → MadeTurnsFromStart L.state edge.old edge.new
            level table (AreObservedTurns strict drain level table result.0.turns (W.seen watch.old)
            (W.seen watch.new)) result.1.value }
        // The number of turns is the given one, or less only if `drain` is set and init is drained.
        ensures most { result.0.turns ≤ turns }
        ensures fewer { result.0.turns < turns → (drain ≡ true) × (result.0.drained ≡ true) }
        ensures drained { result.0.drained ≡ is_drained result.1.value }
        ensures logged { result.0.logged ≡ not (L.state edge.new.log).failed }
        ensures settings { H.settings edge.new.host ≡ H.settings edge.old.host }
    {
        let Opening { mut core, told } = self;
        edge.write(&told);
        drop(told);
        let served = serve(alloc, &mut *core, edge, turns, drain, strict, watch);
        (served, core)
    }
}

/// Returns the core of an opening, on the heap.
fn core_over<A: Allocator + Copy>(
    alloc: A,
    table: Table<A>,
    level: Option<Level>,
) -> Result<Box<Core<A>, A>, Memory>
    ensures { IfOk result (λ core.
        core.value ≡ opening_state table (opening_goal level table)) }
{
    Ok(Box::new(alloc, Core::new(alloc, table, level)?)?)
}

//! Turns, one after the other.

ghost use Rattle.std.specs.Prelude.{◌≡◌, ◌∷◌, ◌&&◌, ◌≤◌, ◌<◌, List, Option, [], not, true, false};
ghost use Rattle.supervisor.specs.Words.{is_drained, CoreState, calls_of, ExtendsLogFromCore, ExtendsLogFromReader, TracksPoint, Point, NewCallsSatisfy, IsTurn, MadeTurns};
ghost use Rattle.supervisor.specs.Requests.{Brings};
ghost use Rattle.supervisor.specs.Parts.{TracksAtBlockStart, HoldsAfterTurn, HoldsAfterTurns, MadeCallsLead};

use crate::edges::Edge;
use crate::hearing::{hear_clock, hear_lates, hear_requests};
use crate::stepping::take_steps;
use host_calls::Host;
use initctl_frame::Blocks;
use level_core::Core;
use std::alloc::Allocator;
use trace_log::Log;

/// Observes init's core after each turn, before the pause.
pub trait TurnObserver<A: Allocator> {
    /// The cores observed so far, newest first, or `None` if some observation was not recorded.
    ghost seen: { Self → Option (List CoreState) };

    /// Observes init's core after a turn.
    fn look(&mut self, core: &Core<A>)
        // records that it observed this core, or records nothing from this point on
        ensures seen { NewCallsSatisfy (seen self.old) (seen self.new)
            (λ cores. cores ≡ core.now ∷ []) };
}

/// An observer that ignores all cores.
pub struct IgnoringObserver {}

impl<A: Allocator> TurnObserver<A> for IgnoringObserver {
    ghost use Rattle.std.specs.Prelude.{None};

    ghost seen = { λ _. None };

    fn look(&mut self, _core: &Core<A>) {}
}

/// How a run of turns ended.
#[derive(Clone, Copy, PartialEq, Eq)]
pub struct Served {
    /// The number of turns made.
    pub turns: u64,
    /// Whether init has nothing left to do and no child.
    pub drained: bool,
    /// Whether the log accepted the whole trace.
    pub logged: bool,
}

/// Makes one turn of init, and returns whether nothing is due after it.
///
/// A turn reads the clock, up to 4,096 bytes of requests and up to 4,096 late answers, begins a round, and carries out
/// init's steps until none is due, at most 10,000.
///
/// If the clock, the bytes, an announcement or the log fails, the turn continues without it. The answer to a start,
/// look or signal that fails says so. If inittab cannot be read, or its table cannot be put in force, the table in
/// force stays; with `strict`, also if a line is faulty.
pub fn turn<A: Allocator + Copy, H: Host, L: Log>(
    alloc: A,
    core: &mut Core<A>,
    edge: &mut Edge<H, L>,
    blocks: &mut Blocks,
    strict: bool,
) -> bool
    // The calls to the host form a turn; if the host records its calls, these are the recorded ones. Suppose that
    // init's core tracked a sound trace, and that the answers were possible (`is_allowed`). Then each text handed over
    // represents init's state. Suppose also that the host returned these texts in a permitted way: unchanged, cut
    // short, replaced by a text of another generation, or not at all. Then init was allowed to make each call at its
    // point, and the trace is sound and breaks no law; this also holds up to each single call, unless the next call
    // announces its outcome, whatever the later answers. Init's core tracks the new trace; the children in its records,
    // corrected for the answers not yet told to init, are the unreaped children; and if the result is true, nothing is
    // due. If the grace periods in the trace are at most 3,600 seconds, the log accepted what the turn added to the
    // trace, or, if it failed, the part before its failure; at each call, it had accepted everything up to that moment,
    // or had failed.
    ensures makes { MadeCallsLead L.state edge.old edge.new
        (IsTurn strict result) (TracksPoint core.old blocks.old)
        (HoldsAfterTurn result core.new blocks.new) }
    // whatever the answers: the log only grows, and grace periods of at most 3,600 seconds stay so
    ensures grows { ExtendsLogFromReader core.old core.new blocks.old blocks.new
        (L.state edge.old.log) (L.state edge.new.log) }
    ensures settings { H.settings edge.new.host ≡ H.settings edge.old.host }
{
    hear_clock(core, edge);
    hear_requests(core, edge, blocks);
    hear_lates(core, edge);
    take_steps(alloc, core, edge, strict)
}

/// Returns whether `drain` is set and init is drained, so the run ends.
fn is_over<A: Allocator>(core: &Core<A>, drain: bool) -> bool
    ensures { result ≡ (drain && is_drained core.now) }
{
    drain && core.drained()
}

fn served_so_far<A: Allocator, H: Host, L: Log>(
    core: &Core<A>,
    edge: &Edge<H, L>,
    turns: u64,
) -> Served
    ensures turns { result.turns ≡ turns }
    ensures drained { result.drained ≡ is_drained core.now }
    ensures logged { result.logged ≡ not (L.state edge.now.log).failed }
{
    Served {
        turns,
        drained: core.drained(),
        logged: !edge.failed(),
    }
}

/// Makes up to the given number of turns, with an observation and a pause after each.
///
/// With `drain`, the run ends after the first turn that leaves init nothing to do and no child. With `strict`, init
/// rejects an inittab that has a faulty line.
pub fn serve<A: Allocator + Copy, H: Host, L: Log, W: TurnObserver<A>>(
    alloc: A,
    core: &mut Core<A>,
    edge: &mut Edge<H, L>,
    turns: u64,
    drain: bool,
    strict: bool,
    watch: &mut W,
) -> Served
    // The calls to the host form `result.turns` turns; if the host records its calls, these are the recorded ones. With
    // `drain`, only the last turn can have left init drained. Suppose that init's core tracked a sound trace, that no
    // block of requests was incomplete, and that the answers were possible (`is_allowed`). Then each text handed over
    // represents init's state. Suppose also that the host returned these texts in a permitted way: unchanged, cut
    // short, replaced by a text of another generation, or not at all. Then init was allowed to make each call at its
    // point, and the trace is sound and breaks no law; this also holds up to each single call, unless the next call
    // announces its outcome, whatever the later answers. The core observed after each turn tracks the trace so far. The
    // core at the end tracks the whole trace; the children in its records, corrected for the answers not yet told to
    // init, are the unreaped children. If the grace periods in the trace are at most 3,600 seconds, the log accepted
    // what the turns added to the trace, or, if it failed, the part before its failure; at each call, it had accepted
    // everything up to that moment, or had failed.
    ensures trace { MadeCallsLead L.state edge.old edge.new
        (MadeTurns strict drain (TracksAtBlockStart core.old) result.turns (W.seen watch.old)
        (W.seen watch.new))
        (TracksAtBlockStart core.old) (HoldsAfterTurns core.new) }
    // the requests in the trace are exactly the requests in all bytes read, in order
    ensures requests { NewCallsSatisfy edge.old.told edge.new.told (λ made_calls. (p : Point)
        → p.over ≡ [] → Brings [] (calls_of made_calls) p) }
    // The number of turns is the given one, or less only if `drain` is set and init is drained.
    ensures most { result.turns ≤ turns }
    ensures fewer { result.turns < turns → (drain ≡ true) × (result.drained ≡ true) }
    ensures drained { result.drained ≡ is_drained core.new }
    ensures logged { result.logged ≡ not (L.state edge.new.log).failed }
    // whatever the answers: the log only grows, and grace periods of at most 3,600 seconds stay so
    ensures grows { ExtendsLogFromCore core.old core.new (L.state edge.old.log)
        (L.state edge.new.log) }
    ensures settings { H.settings edge.new.host ≡ H.settings edge.old.host }
{
    let mut blocks = Blocks::new();
    for made in 0..turns {
        let _ = turn(alloc, core, edge, &mut blocks, strict);
        watch.look(core);
        edge.pause();
        if is_over(core, drain) {
            return served_so_far(core, edge, made + 1);
        }
    }
    served_so_far(core, edge, turns)
}

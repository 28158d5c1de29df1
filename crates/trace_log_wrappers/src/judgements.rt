//! The verdict of a judge on a run so far.

ghost use Rattle.std.specs.Prelude.{◌≡◌, ◌+◌, ◌∷◌, length, List};
ghost use Rattle.trace_events.specs.Event.{Event};
ghost use Rattle.trace_check.specs.Judging.{Judged, Judging};
ghost use Rattle.trace_log_wrappers.specs.Judgements.{JudgedSoFar};

use init_words::Memory;
use std::alloc::Allocator;
use trace_check::{Law, TraceJudge};
use trace_events::HappeningIn;

/// The verdict on the happenings that a log has taken.
#[derive(Clone, Copy, PartialEq, Eq)]
pub enum Judgement {
    /// No happening broke a law. The value is the number of happenings judged.
    Lawful(u64),
    /// The position of the first happening that broke a law, counted from 0, and the lowest-numbered law that it broke.
    Breach(u64, Law),
    /// Not all happenings were judged, because memory allocation failed or no judge was requested.
    Unjudged,
}

impl Judgement {
    /// Returns the verdict after one more happening.
    pub(crate) fn with_next<A: Allocator + Copy, B: Allocator>(
        self,
        judge: &mut TraceJudge<A>,
        happening: &HappeningIn<B>,
    ) -> Judgement
        ensures { (past : List Event) → JudgedSoFar judge.old self past
            → JudgedSoFar judge.new result (happening.now ∷ past) }
    {
        let Judgement::Lawful(count) = self else {
            return self;
        };
        match judge.take(happening) {
            Ok(None) => lawful(count),
            Ok(Some(law)) => Judgement::Breach(count, law),
            Err(Memory) => Judgement::Unjudged,
        }
    }
}

/// Returns the verdict that no law was broken by `count` happenings and one more.
fn lawful(count: u64) -> Judgement
    ensures { (judge : Judging) (past : List Event) → Judged judge past → length past ≡ count + 1
        → JudgedSoFar judge result past }
{
    match count.checked_add(1) {
        Some(count) => Judgement::Lawful(count),
        None => Judgement::Unjudged,
    }
}

//! A log of the brief form of a trace. It holds back each happening that may still be omitted or changed because of a
//! later one, and passes the others on to another log.

ghost use Rattle.std.specs.Prelude.{◌≡◌, ◌++◌, ◌∷◌, [], List, true, false, is_err, reverse, OnOk, OnErr};
ghost use Rattle.trace_events.specs.Event.{Event};
ghost use Rattle.trace_events.specs.Range.{is_in_range, is_short};
ghost use Rattle.trace_log_wrappers.specs.Holding.{look_events, round_events, reading_events, written_of, next_held};
ghost use Rattle.trace_log_wrappers.specs.Adding.{AddsHappenings, AddsFront, held_first, newly_first};
ghost use Rattle.trace_log_wrappers.specs.Keeping.{HandsOn, BriefLogAccepted, brief_state};

use crate::held::{HeldBack, HeldLook};
use init_words::OrderKind;
use std::alloc::{Allocator, Global};
use std::marker::Model;
use trace_events::{Happening, HappeningIn, law_of_ranges};
use trace_log::{EndedLog, Log, LogFault};

/// A log that passes on the brief form of its trace to another log.
///
/// It holds back at most four happenings: a reading of the clock, a round, the order of a look, and its result if it
/// found nothing. It does not allocate. `end` passes on the happenings held back; `into_log` drops them.
#[derive(Drop)]
pub struct BriefLog<L> {
    log: L,
    held: HeldBack,
}

impl<L> Model for BriefLog<L> {
    ghost use Rattle.trace_log_wrappers.specs.Keeping.{Brief};

    ghost Value = { Brief L };

    ghost view = { λ log. record { log = log.log; held = log.held } };
}

/// Passes one happening on to the log.
fn write_to<L: Log, B: Allocator>(log: &mut L, happening: &HappeningIn<B>) -> Result<(), LogFault>
    requires { (L.state log.old).failed ≡ false }
    ensures flag { (L.state log.new).failed ≡ is_err result }
    ensures ok { OnOk result (is_short happening.now ≡ true
        → AddsHappenings (L.state log.old) (L.state log.new) (happening.now ∷ [])) }
    ensures err { OnErr result (is_short happening.now ≡ true
        → AddsHappenings (L.state log.old) (L.state log.new) []) }
{
    law_of_ranges(happening);
    log.take(happening)
}

/// Passes a held reading on to the log, if there is one.
fn write_reading<L: Log>(log: &mut L, reading: Option<u64>) -> Result<(), LogFault>
    requires { (L.state log.old).failed ≡ false }
    ensures flag { (L.state log.new).failed ≡ is_err result }
    ensures ok { OnOk result (AddsHappenings
        (L.state log.old) (L.state log.new)
        (reading_events reading)) }
    ensures err { OnErr result (AddsHappenings (L.state log.old) (L.state log.new) []) }
{
    match reading {
        None => Ok(()),
        Some(reading) => {
            let happening: HappeningIn<Global> = Happening::Clock(reading);
            write_to(log, &happening)
        }
    }
}

/// Passes a held round on to the log, if there is one.
fn write_round<L: Log>(log: &mut L, round: bool) -> Result<(), LogFault>
    requires { (L.state log.old).failed ≡ false }
    ensures flag { (L.state log.new).failed ≡ is_err result }
    ensures ok { OnOk result (AddsHappenings
        (L.state log.old) (L.state log.new)
        (round_events round)) }
    ensures err { OnErr result (AddsHappenings (L.state log.old) (L.state log.new) []) }
{
    if !round {
        return Ok(());
    }
    let happening: HappeningIn<Global> = Happening::Nudge;
    write_to(log, &happening)
}

/// Passes a held look on to the log, if there is one.
fn write_look<L: Log>(log: &mut L, look: &Option<HeldLook>) -> Result<(), LogFault>
    requires { (L.state log.old).failed ≡ false }
    ensures flag { (L.state log.new).failed ≡ is_err result }
    ensures ok { OnOk result (AddsHappenings
        (L.state log.old) (L.state log.new)
        (reverse (look_events look.now))) }
    ensures err { OnErr result (AddsFront
        (L.state log.old) (L.state log.new)
        (reverse (look_events look.now))) }
{
    match look {
        None => Ok(()),
        Some(HeldLook::Ordered(id)) => {
            let order: HappeningIn<Global> = Happening::Asked(*id, OrderKind::Look);
            write_to(log, &order)
        }
        Some(HeldLook::FoundNothing(id)) => {
            let order: HappeningIn<Global> = Happening::Asked(*id, OrderKind::Look);
            write_to(log, &order)?;
            let still: HappeningIn<Global> = Happening::Still(*id);
            write_to(log, &still)
        }
    }
}

/// Passes all happenings held back on to the log.
fn write_held<L: Log>(log: &mut L, held: &HeldBack) -> Result<(), LogFault>
    requires { (L.state log.old).failed ≡ false }
    ensures flag { (L.state log.new).failed ≡ is_err result }
    ensures ok { OnOk result (AddsHappenings
        (L.state log.old) (L.state log.new)
        (held_first held.now)) }
    ensures err { OnErr result (AddsFront
        (L.state log.old) (L.state log.new)
        (held_first held.now)) }
{
    write_reading(log, held.reading)?;
    write_round(log, held.round)?;
    write_look(log, &held.look)
}

/// Passes a happening on to the log, unless it is a reading or a round.
fn write_new<L: Log, B: Allocator>(log: &mut L, happening: &HappeningIn<B>) -> Result<(), LogFault>
    requires { (L.state log.old).failed ≡ false }
    ensures flag { (L.state log.new).failed ≡ is_err result }
    ensures ok { OnOk result (is_in_range happening.now ≡ true
        → AddsHappenings (L.state log.old) (L.state log.new) (written_of happening.now)) }
    ensures err { OnErr result (is_in_range happening.now ≡ true
        → AddsFront (L.state log.old) (L.state log.new) (written_of happening.now)) }
{
    match happening {
        Happening::Clock(_) | Happening::Nudge => Ok(()),
        _ => log.take(happening),
    }
}

/// Passes all happenings held back on to the log, and then the happening, unless it is a reading or a round.
fn write_all<L: Log, B: Allocator>(
    log: &mut L,
    held: &HeldBack,
    happening: &HappeningIn<B>,
) -> Result<(), LogFault>
    requires { (L.state log.old).failed ≡ false }
    ensures flag { (L.state log.new).failed ≡ is_err result }
    ensures ok { OnOk result (is_in_range happening.now ≡ true
        → AddsHappenings
        (L.state log.old) (L.state log.new)
        (held_first held.now ++ written_of happening.now)) }
    ensures err { OnErr result (is_in_range happening.now ≡ true
        → AddsFront
        (L.state log.old) (L.state log.new)
        (held_first held.now ++ written_of happening.now)) }
{
    write_held(log, held)?;
    write_new(log, happening)
}

impl<L: Log> BriefLog<L> {
    /// Creates a brief log that passes its happenings on to `log`, which must be empty.
    pub fn new(log: L) -> BriefLog<L>
        ensures log { result.log ≡ log }
        ensures nothing { (L.state log).taken [] → (brief_state L.state result).taken [] }
    {
        BriefLog {
            log,
            held: HeldBack::new(),
        }
    }

    /// Holds the happening back, or passes it on to the other log after all those held back.
    fn step<B: Allocator>(&mut self, happening: &HappeningIn<B>) -> Result<(), LogFault>
        requires { (L.state self.old.log).failed ≡ false }
        ensures flag { (L.state self.new.log).failed ≡ is_err result }
        ensures held { OnOk result (self.new.held ≡ next_held happening.now self.old.held) }
        ensures ok { OnOk result (is_in_range happening.now ≡ true → AddsHappenings
            (L.state self.old.log) (L.state self.new.log)
            (newly_first happening.now self.old.held)) }
        ensures err { OnErr result (is_in_range happening.now ≡ true → AddsFront
            (L.state self.old.log) (L.state self.new.log)
            (newly_first happening.now self.old.held)) }
    {
        match self.held.hold_back(happening) {
            Some(held) => {
                self.held = held;
                Ok(())
            }
            None => {
                write_all(&mut self.log, &self.held, happening)?;
                self.held = HeldBack::behind(happening);
                Ok(())
            }
        }
    }

    /// Returns the other log, whether it has failed or not. Happenings that are still held are lost; `end` passes them
    /// on instead.
    pub fn into_log(self) -> L
        ensures { result ≡ self.log }
    {
        let BriefLog { log, held: _ } = self;
        log
    }
}

impl<L: Log> Log for BriefLog<L> {
    ghost use Rattle.trace_log.specs.Logs.{AcceptsHappening, Stays};
    ghost use Rattle.trace_log_wrappers.specs.Keeping.{Grows};

    ghost state = { brief_state L.state };

    /// Takes a happening: holds it back, or passes it on to the other log after all those held back. The happenings
    /// passed on and those held back are together the brief form of those taken.
    fn take<B: Allocator>(&mut self, happening: &HappeningIn<B>) -> Result<(), LogFault>
        requires { (L.state self.old.log).failed ≡ false }
        ensures flag { (L.state self.new.log).failed ≡ is_err result }
        ensures ok { OnOk result (is_in_range happening.now ≡ true
            → AcceptsHappening (brief_state L.state self.old)
            (brief_state L.state self.new) happening.now) }
        ensures err { OnErr result (is_in_range happening.now ≡ true
            → Stays (brief_state L.state self.old) (brief_state L.state self.new)) }
        ensures kept { is_in_range happening.now ≡ true
            → Grows (L.state self.old.log) (L.state self.new.log) }
    {
        self.step(happening)
    }

    fn failed(&self) -> bool {
        self.log.failed()
    }
}

/// Passes all happenings held back on to the log, unless it has failed. Returns whether the log took them.
fn hand_on<L: Log>(log: &mut L, held: &HeldBack) -> bool
    ensures failed { (L.state log.old).failed ≡ true → result ≡ false }
    ensures handed { (trace : List Event)
        → BriefLogAccepted (L.state log.old).failed (L.state log.old) held.now trace
        → HandsOn result (L.state log.new).taken trace }
{
    if log.failed() {
        return false;
    }
    write_held(log, held).is_ok()
}

impl<L: EndedLog> EndedLog for BriefLog<L> {
    ghost use Rattle.trace_log_wrappers.specs.Keeping.{EndsBrief};

    type Left = L::Left;

    ghost has_ended = { λ left whole trace. EndsBrief (L.has_ended left) whole trace };

    /// Passes all happenings held back on to the other log, and ends it. That log has then taken the brief form of the
    /// trace, or if it failed, a part of it.
    fn end(self) -> (L::Left, bool) {
        let BriefLog { mut log, held } = self;
        let handed = hand_on(&mut log, &held);
        let (left, whole) = log.end();
        (left, handed && whole)
    }
}

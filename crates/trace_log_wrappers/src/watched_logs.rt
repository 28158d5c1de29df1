//! A log that notes and judges the happenings that it passes on to another log.

use crate::judgements::Judgement;
use crate::passed_over::Asked;
use crate::run_notes::RunNotes;
use init_words::{Id, Memory};
use std::alloc::{Allocator, Global};
use std::marker::Model;
use std::str;
use trace_check::{Law, TraceJudge};
use trace_events::HappeningIn;
use trace_log::{Log, LogFault};
use trace_text::print_one;

/// A log that passes each happening on to another log, notes what that log takes, and judges it if a judge was
/// requested.
///
/// It warns on standard error about the first happening that breaks a law, about a request for a level that changes
/// nothing, and about a change of level that a later request replaces.
#[derive(Drop)]
pub struct NotingLog<'a, R, L, A: Allocator = Global> {
    rt: &'a R,
    alloc: A,
    log: L,
    asked: Asked,
    notes: RunNotes<A>,
    judge: TraceJudge<A>,
    judgement: Judgement,
}

impl<'a, R, L, A: Allocator> Model for NotingLog<'a, R, L, A> {
    ghost use Rattle.trace_log_wrappers.specs.Watching.{Watched};

    ghost Value = { Watched L };

    ghost view = { λ watched. record {
      log = watched.log;
      notes = watched.notes;
      judge = watched.judge;
      judgement = watched.judgement;
    } };
}

impl<'a, R: Eprint, L: Log, A: Allocator + Copy> NotingLog<'a, R, L, A> {
    ghost use Rattle.std.specs.Prelude.{◌≡◌, [], List, reverse};
    ghost use Rattle.trace_events.specs.Event.{Event};
    ghost use Rattle.trace_log_wrappers.specs.Judgements.{IsJudgementOf, found_first};
    ghost use Rattle.trace_log_wrappers.specs.Watching.{watched_state};

    /// Creates a log that passes its happenings on to `log`, notes the last exit status of the id `wanted`, if given,
    /// and judges the happenings if `is_judged` is set. This does not allocate.
    pub fn new(
        rt: &'a R,
        alloc: A,
        log: L,
        wanted: Option<Id>,
        is_judged: bool,
    ) -> NotingLog<'a, R, L, A>
        ensures log { result.log ≡ log }
        ensures wanted { result.notes.wanted ≡ wanted }
        ensures found { result.judgement ≡ found_first is_judged }
        ensures nothing { (L.state log).taken [] → (watched_state L.state result).taken [] }
    {
        NotingLog {
            rt,
            alloc,
            log,
            asked: Asked::default(),
            notes: RunNotes::new(alloc, wanted),
            judge: TraceJudge::new(alloc),
            judgement: if is_judged {
                Judgement::Lawful(0)
            } else {
                Judgement::Unjudged
            },
        }
    }

    /// Returns the other log, the notes on what it took, and the verdict on it.
    pub fn into_parts(self) -> (L, RunNotes<A>, Judgement)
        ensures parts { result ≡ (self.entry.log, self.entry.notes, self.entry.judgement) }
        ensures found { (trace : List Event) → (watched_state L.state self.entry).taken trace
            → IsJudgementOf result.2 (reverse trace) }
    {
        let NotingLog {
            rt: _,
            alloc: _,
            log,
            asked: _,
            notes,
            judge,
            judgement,
        } = self;
        // A single call, because the prover would otherwise go through the fields of the dropped value one by one.
        drop(judge);
        (log, notes, judgement)
    }

    /// Warns if this happening is the first to break a law.
    fn tell<B: Allocator>(&self, before: Judgement, happening: &HappeningIn<B>) {
        if let (Judgement::Lawful(_), Judgement::Breach(position, law)) = (before, self.judgement) {
            tell_breach(self.rt, self.alloc, position, law, happening);
        }
    }
}

/// Warns on standard error that a happening breaks a law and that init continues.
fn tell_breach<R: Eprint, A: Allocator + Copy, B: Allocator>(
    rt: &R,
    alloc: A,
    position: u64,
    law: Law,
    happening: &HappeningIn<B>,
) {
    match print_one(alloc, happening) {
        Ok(text) => tell_line(rt, position, str::from_utf8(&text).unwrap_or("?"), law),
        Err(Memory) => tell_line(rt, position, "?", law),
    }
}

fn tell_line<R: Eprint>(rt: &R, position: u64, line: &str, law: Law) {
    let line = line.trim_end();
    let _ = eprintln!(rt; "initd: happening {position}, {line}: {law}; init continues");
}

impl<R: Eprint, L: Log, A: Allocator + Copy> Log for NotingLog<'_, R, L, A> {
    ghost use Rattle.std.specs.Prelude.{◌≡◌, true, false, is_err, OnOk, OnErr};
    ghost use Rattle.trace_events.specs.Range.{is_in_range};
    ghost use Rattle.trace_log.specs.Logs.{AcceptsHappening, Stays};
    ghost use Rattle.trace_log_wrappers.specs.Watching.{watched_state};

    ghost state = { watched_state L.state };

    /// Passes the happening on. If the other log takes it, this log notes it, and judges it unless an earlier happening
    /// broke a law.
    fn take<B: Allocator>(&mut self, happening: &HappeningIn<B>) -> Result<(), LogFault>
        requires { (L.state self.old.log).failed ≡ false }
        ensures flag { (L.state self.new.log).failed ≡ is_err result }
        ensures ok { OnOk result (is_in_range happening.now ≡ true
            → AcceptsHappening (watched_state L.state self.old)
            (watched_state L.state self.new) happening.now) }
        ensures err { OnErr result (is_in_range happening.now ≡ true
            → Stays (watched_state L.state self.old) (watched_state L.state self.new)) }
        ensures log_ok { OnOk result (is_in_range happening.now ≡ true
            → AcceptsHappening (L.state self.old.log) (L.state self.new.log) happening.now) }
        ensures log_err { OnErr result (is_in_range happening.now ≡ true
            → Stays (L.state self.old.log) (L.state self.new.log)) }
        ensures kept { OnErr result (self.new ≡ record self.old { log = self.new.log }) }
        ensures wanted { self.new.notes.wanted ≡ self.old.notes.wanted }
    {
        self.asked.note(self.rt, happening);
        self.log.take(happening)?;
        let before = self.judgement;
        self.judgement = before.with_next(&mut self.judge, happening);
        self.tell(before, happening);
        self.notes.note(happening);
        Ok(())
    }

    fn failed(&self) -> bool {
        self.log.failed()
    }
}

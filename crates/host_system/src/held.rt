//! A child that a host holds: it was started and has not been reaped.

ghost use Rattle.std.specs.Prelude.{◌≡◌, ◌∷◌};
ghost use Rattle.host_system.specs.Systems.{sent, waited};
ghost use Rattle.host_system.specs.Systems.SystemCall.{try_wait};

use crate::systems::System;
use host_lines::{ChildLine, ChildMessage, Doing, HostLine, MessageSink, Trouble};
use init_words::{ChildNumber, Id, SignalKind};
use std::alloc::Allocator;
use std::io;
use std::marker::Model;
use std::process::ExitStatus;
use std::rt::Clock;
use std::time::{Duration, Instant};

/// The number of seconds after which it is reported again that a child cannot be waited for.
const AGAIN: u64 = 60;

/// A child with the number that it was born with, and a record of the reports about it.
#[derive(Drop)]
pub(crate) struct HeldChild<S: System> {
    number: ChildNumber,
    process: S::Started,
    stopping: Trouble,
    /// Whether it was reported that the child cannot be sent KILL.
    is_unkilled: bool,
    /// Whether it is reported that the child cannot be waited for, and when it was last reported.
    is_unwaited: bool,
    told: Option<Instant>,
    /// How an inittab that was read since the child's birth affects the child.
    line: Option<ChildLine>,
}

impl<S: System> Model for HeldChild<S> {
    ghost use Rattle.std.specs.Prelude.{◌≡◌, ℕ};

    ghost Value = { ℕ };

    ghost view = { λ held. held.number };

    ghost invariant = { λ held. S.number held.process ≡ held.number };
}

impl<S: System> HeldChild<S> {
    /// Returns a child that has just been started.
    pub(crate) fn new(system: &S, process: S::Started) -> HeldChild<S>
        ensures { result ≡ S.number process }
    {
        HeldChild {
            number: ChildNumber(system.number_of(&process)),
            process,
            stopping: Trouble::new(Doing::SendTerm),
            is_unkilled: false,
            is_unwaited: false,
            told: None,
            line: None,
        }
    }

    /// Returns the child's number.
    pub(crate) fn number(&self) -> ChildNumber
        ensures { result ≡ self.now }
    {
        self.number
    }

    /// Returns how the child ended, if it has ended (waitpid(2) with WNOHANG).
    ///
    /// If the child cannot be waited for, that is reported, and again each minute while the stage is not settled. It is
    /// also reported when the child can be waited for again.
    pub(crate) fn try_wait<R: MessageSink + Clock>(
        &mut self,
        system: &mut S,
        rt: &R,
        id: &Id,
        is_settled: bool,
    ) -> io::Result<Option<ExitStatus>>
        ensures same { self.new ≡ self.old }
        ensures asked { S.told system.new
            ≡ try_wait self.old (waited result) ∷ S.told system.old }
    {
        let outcome = system.try_wait(&mut self.process);
        match &outcome {
            Ok(_) => self.tell_waited(rt, id),
            Err(error) => self.tell_unwaited(rt, id, error, is_settled),
        }
        outcome
    }

    fn tell_waited(&mut self, rt: &impl MessageSink, id: &Id)
        ensures { self.new ≡ self.old }
    {
        if self.is_unwaited {
            self.is_unwaited = false;
            rt.tell(&HostLine::OfChild {
                id: *id,
                message: ChildMessage::Waited(self.number),
            });
        }
    }

    fn tell_unwaited<R: MessageSink + Clock>(
        &mut self,
        rt: &R,
        id: &Id,
        error: &io::Error,
        is_settled: bool,
    )
        ensures { self.new ≡ self.old }
    {
        if self.is_unwaited && (is_settled || !is_past(rt, self.told)) {
            return;
        }
        self.is_unwaited = true;
        self.told = Instant::now(rt).ok();
        rt.tell(&HostLine::OfChild {
            id: *id,
            message: ChildMessage::Unwaited {
                number: self.number,
                error,
            },
        });
    }

    /// Sends the signal to the child, or to its process group if children have groups, and returns whether it was sent.
    /// Failures are reported.
    pub(crate) fn send<R: MessageSink, A: Allocator + Copy>(
        &mut self,
        system: &mut S,
        rt: &R,
        alloc: A,
        groups: bool,
        id: &Id,
        signal: SignalKind,
    ) -> bool
        ensures same { self.new ≡ self.old }
        ensures asked { S.told system.new
            ≡ sent groups signal self.old result ∷ S.told system.old }
    {
        let sent = match signal {
            _ if groups => system.send_group(alloc, &mut self.process, signal),
            SignalKind::Term => system.terminate(alloc, self.number.0),
            SignalKind::Kill => system.kill(&mut self.process),
        };
        match (signal, &sent) {
            (SignalKind::Term, _) => self.stopping.tell(rt, id.as_str(), &sent),
            (SignalKind::Kill, Err(error)) => self.tell_unkilled(rt, id, error),
            (SignalKind::Kill, Ok(())) => {}
        }
        sent.is_ok()
    }

    fn tell_unkilled(&mut self, rt: &impl MessageSink, id: &Id, error: &io::Error)
        ensures { self.new ≡ self.old }
    {
        if !self.is_unkilled {
            self.is_unkilled = true;
            rt.tell(&HostLine::OfChild {
                id: *id,
                message: ChildMessage::Unkilled {
                    number: self.number,
                    error,
                },
            });
        }
    }

    /// Records how an inittab that was read affects the child.
    pub(crate) fn note(&mut self, line: ChildLine)
        ensures { self.new ≡ self.old }
    {
        self.line = Some(line);
    }

    /// If the child, which is being sent a signal, is stopped because inittab was read again, reports that on standard
    /// error, once.
    pub(crate) fn tell_cost(&mut self, rt: &impl MessageSink, id: &Id, is_same_stage: bool)
        ensures { self.new ≡ self.old }
    {
        match self.line.take() {
            Some(line) if line.stops_child(is_same_stage) => rt.tell(&HostLine::OfChild {
                id: *id,
                message: ChildMessage::Stopped {
                    number: self.number,
                    line,
                },
            }),
            _ => {}
        }
    }
}

/// Returns whether enough time has passed since the last report to report again.
fn is_past(rt: &impl Clock, told: Option<Instant>) -> bool {
    let Some(told) = told else {
        return false;
    };
    matches!(told.elapsed(rt), Ok(passed) if passed >= Duration::from_secs(AGAIN))
}

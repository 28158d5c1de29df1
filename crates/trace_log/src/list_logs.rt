//! A log in memory.

ghost use Rattle.std.specs.Prelude.{◌≡◌, ◌++◌, ◌∷◌, [], OnOk, IfErr};

use crate::faults::LogFault;
use crate::logs::{EndedLog, Log};
use std::alloc::{Allocator, Global};
use std::marker::Model;
use trace_events::{HappeningIn, happening_copy};

/// A log that keeps copies of the happenings in a list. It fails only if memory allocation fails.
#[derive(Drop)]
pub struct ListLog<A: Allocator = Global> {
    list: Vec<HappeningIn<A>, A>,
    failed: bool,
}

impl<A: Allocator> Model for ListLog<A> {
    ghost use Rattle.trace_log.specs.Lists.{Listed};

    ghost Value = { Listed };

    ghost view = { λ log. record { list = log.list.items; failed = log.failed } };
}

impl<A: Allocator> ListLog<A> {
    ghost use Rattle.std.specs.Prelude.{false};

    /// Creates an empty log. This does not allocate.
    pub fn new(alloc: A) -> ListLog<A>
        ensures { result ≡ record { list = []; failed = false } }
    {
        ListLog {
            list: Vec::new(alloc),
            failed: false,
        }
    }

    /// Returns the recorded happenings, oldest first.
    pub fn list(&self) -> &[HappeningIn<A>]
        ensures { result.now ≡ self.now.list }
    {
        self.list.as_slice()
    }
}

impl<A: Allocator + Copy> Log for ListLog<A> {
    ghost use Rattle.std.specs.Prelude.{◌≡◌, ◌++◌, ◌∷◌, [], false, is_err, OnOk, OnErr, IfErr};
    ghost use Rattle.trace_log.specs.Lists.{Listed, list_state};

    ghost state = { list_state };

    /// Appends a copy of the happening. Fails only with `Memory`.
    fn take<B: Allocator>(&mut self, happening: &HappeningIn<B>) -> Result<(), LogFault>
        requires { self.old.failed ≡ false }
        ensures flag { self.new.failed ≡ is_err result }
        ensures ok { OnOk result (self.new.list ≡ self.old.list ++ happening.now ∷ []) }
        ensures err { OnErr result (self.new.list ≡ self.old.list) }
        ensures fault { IfErr result (λ fault. fault ≡ LogFault.Memory) }
    {
        let taken = keep(&mut self.list, happening);
        self.failed = taken.is_err();
        taken
    }

    fn failed(&self) -> bool {
        self.failed
    }
}

/// Appends a copy of the happening to the list.
fn keep<A: Allocator + Copy, B: Allocator>(
    list: &mut Vec<HappeningIn<A>, A>,
    happening: &HappeningIn<B>,
) -> Result<(), LogFault>
    ensures ok { OnOk result (list.new.items ≡ list.old.items ++ happening.now ∷ []) }
    ensures err { IfErr result (λ fault.
        (fault ≡ LogFault.Memory) × (list.new.items ≡ list.old.items)) }
{
    let copy = happening_copy(*list.allocator(), happening)?;
    match list.push(copy) {
        Ok(()) => Ok(()),
        Err(_) => Err(LogFault::Memory),
    }
}

impl<A: Allocator + Copy> EndedLog for ListLog<A> {
    ghost use Rattle.std.specs.Prelude.{◌≡◌};

    type Left = Vec<HappeningIn<A>, A>;

    ghost has_ended = { λ list whole trace. list.items ≡ trace };

    /// Returns the list, which has all recorded happenings.
    fn end(self) -> (Vec<HappeningIn<A>, A>, bool) {
        let ListLog { list, failed } = self;
        (list, !failed)
    }
}

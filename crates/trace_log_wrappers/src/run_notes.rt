//! Notes for the report at the end of a run: which children have not been reaped, and the exit status of the last child
//! of one id.

ghost use Rattle.std.specs.Prelude.{◌≡◌, ◌∷◌, [], true, List, OnOk, Option};
ghost use Rattle.trace_events.specs.Event.{Event};
ghost use Rattle.trace_log_wrappers.specs.Notes.{IsLast, IsRunning, AreNotesOf, is_wanted};

use indexmap::IndexMap;
use init_words::{ChildNumber, Id, Memory, Status};
use std::alloc::{Allocator, Global};
use std::hash::{BuildHasherDefault, FoldHasher};
use std::marker::Model;
use trace_events::{Happening, HappeningIn};

/// The child numbers by id, in the order of birth.
pub type Numbers<A = Global> = IndexMap<Id, ChildNumber, BuildHasherDefault<FoldHasher>, A>;

/// The notes on a run for its final report.
#[derive(Drop)]
pub struct RunNotes<A: Allocator = Global> {
    /// The id whose last exit status is noted, if any.
    wanted: Option<Id>,
    last: Option<Status>,
    running: Numbers<A>,
    is_complete: bool,
}

impl<A: Allocator> Model for RunNotes<A> {
    ghost use Rattle.trace_log_wrappers.specs.Notes.{Notes};

    ghost Value = { Notes };

    ghost view = { λ notes. record {
      wanted = notes.wanted;
      last = notes.last;
      running = notes.running.entries;
      complete = notes.is_complete;
    } };
}

impl<A: Allocator + Copy> RunNotes<A> {
    ghost use Rattle.std.specs.Prelude.{IfSome, IsSome, ◌↔◌, true};

    /// Creates empty notes, which will record the last exit status of the id `wanted`, if given. This does not
    /// allocate.
    pub(crate) fn new(alloc: A, wanted: Option<Id>) -> RunNotes<A>
        ensures nothing { AreNotesOf result [] }
        ensures wanted { result.wanted ≡ wanted }
    {
        RunNotes {
            wanted,
            last: None,
            running: IndexMap::new(alloc),
            is_complete: true,
        }
    }

    /// Returns the exit status of the last reaped child of the noted id, or `None` if none was reaped.
    pub fn last(&self) -> Option<Status>
        ensures value { result ≡ self.now.last }
        ensures trace { (past : List Event) → AreNotesOf self.now past
            → IsLast result self.now.wanted past }
    {
        self.last
    }

    /// Returns the unreaped children, or `None` if memory ran out before all of them were noted.
    pub fn running(&self) -> Option<&Numbers<A>>
        ensures complete { IsSome result ↔ (self.now.complete ≡ true) }
        ensures value { IfSome result (λ numbers. numbers.now.entries ≡ self.now.running) }
        ensures trace { (past : List Event) → AreNotesOf self.now past
            → IfSome result (λ numbers. IsRunning numbers.now.entries past) }
    {
        if self.is_complete {
            Some(&self.running)
        } else {
            None
        }
    }

    /// Updates the notes for a happening.
    pub(crate) fn note<B: Allocator>(&mut self, happening: &HappeningIn<B>)
        ensures notes { (past : List Event) → AreNotesOf self.old past
            → AreNotesOf self.new (happening.now ∷ past) }
        ensures wanted { self.new.wanted ≡ self.old.wanted }
    {
        self.last = end_behind(self.last, &self.wanted, happening);
        if note_child(&mut self.running, happening).is_err() {
            self.is_complete = false;
        }
    }
}

/// Returns whether the id is the one whose last exit status is noted.
fn is_wanted(id: &Id, wanted: &Option<Id>) -> bool
    ensures { result ≡ is_wanted id.now wanted.now }
{
    match wanted {
        Some(wanted) => *id == *wanted,
        None => false,
    }
}

/// Returns the last exit status of the noted id after a happening, given the one before.
fn end_behind<B: Allocator>(
    last: Option<Status>,
    wanted: &Option<Id>,
    happening: &HappeningIn<B>,
) -> Option<Status>
    ensures { (past : List Event) → IsLast last wanted.now past
        → IsLast result wanted.now (happening.now ∷ past) }
{
    match happening {
        Happening::Reaped(id, _, status) if is_wanted(id, wanted) => Some(*status),
        _ => last,
    }
}

/// Updates the numbers of the unreaped children for a happening.
fn note_child<A: Allocator, B: Allocator>(
    running: &mut Numbers<A>,
    happening: &HappeningIn<B>,
) -> Result<(), Memory>
    ensures { OnOk result ((past : List Event) → IsRunning running.old.entries past
        → IsRunning running.new.entries (happening.now ∷ past)) }
{
    match happening {
        Happening::Birth(id, number) => {
            running.insert(*id, *number)?;
        }
        Happening::Reaped(id, _, _) => {
            running.shift_remove(id);
        }
        _ => {}
    }
    Ok(())
}

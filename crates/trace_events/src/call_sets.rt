//! Sets of pending calls: power events and letters.

ghost use Rattle.std.specs.Prelude.{◌≡◌, true, false};
ghost use Rattle.trace_events.specs.CallSets.{contains_kind, contains_letter, with_kind, with_call, has_news, first_pending_step};

use crate::steps::Step;
use init_words::{Letter, PowerKind};

/// A set of power events and letters, each of which calls entries (telinit(8)).
#[derive(Clone, Copy, Default, PartialEq, Eq)]
pub struct CallSet {
    /// The power failed.
    pub fail: bool,
    /// The power failed, and the battery is almost empty.
    pub fail_now: bool,
    /// The power is back.
    pub ok: bool,
    /// The letter A.
    pub a: bool,
    /// The letter B.
    pub b: bool,
    /// The letter C.
    pub c: bool,
}

impl CallSet {
    /// Returns whether the set is not empty.
    pub fn is_some(&self) -> bool
        ensures { result ≡ has_news self.now }
    {
        self.fail || self.fail_now || self.ok || self.a || self.b || self.c
    }

    /// Returns the step that carries out the first call of the set: power failure, low battery, power restored, then
    /// the letters.
    pub fn first_step(&self) -> Option<Step>
        ensures { result ≡ first_pending_step self.now }
    {
        if self.fail {
            return Some(Step::Power(PowerKind::Fail));
        }
        if self.fail_now {
            return Some(Step::Power(PowerKind::FailNow));
        }
        if self.ok {
            return Some(Step::Power(PowerKind::Ok));
        }
        if self.a {
            return Some(Step::Call(Letter::A));
        }
        if self.b {
            return Some(Step::Call(Letter::B));
        }
        if self.c {
            return Some(Step::Call(Letter::C));
        }
        None
    }

    /// Adds the power event to the set, or removes it.
    pub fn set_power(&mut self, kind: PowerKind, present: bool)
        ensures { self.new ≡ with_kind kind present self.old }
    {
        match kind {
            PowerKind::Fail => self.fail = present,
            PowerKind::FailNow => self.fail_now = present,
            PowerKind::Ok => self.ok = present,
        }
    }

    /// Adds the letter to the set, or removes it.
    pub fn set_letter(&mut self, letter: Letter, present: bool)
        ensures { self.new ≡ with_call letter present self.old }
    {
        match letter {
            Letter::A => self.a = present,
            Letter::B => self.b = present,
            Letter::C => self.c = present,
        }
    }
}

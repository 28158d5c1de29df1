//! The seven laws, with their numbers and messages.

ghost use Rattle.std.specs.Prelude.{◌≡◌};
ghost use Rattle.trace_check.specs.Laws.{law_number, law_words};

use std::fmt;

/// A law that every run of init(8) must obey.
#[derive(Clone, Copy, PartialEq, Eq)]
pub enum Law {
    /// A child is born only if its id has no unreaped child.
    SecondChild,
    /// A child is born only in a stage in which its entry starts.
    OutOfStage,
    /// A child is born only if init does not wait for an earlier entry.
    OutOfTurn,
    /// A child is born only if no excluded child is unreaped.
    BesideExcluded,
    /// A level is announced settled only if it is settled.
    NotSettled,
    /// An entry that respawns too fast is held instead of started, and no other entry is held.
    RespawnLimit,
    /// SIGTERM is sent only to an excluded child, and SIGKILL only after SIGTERM and the grace period.
    SignalNotDue,
}

impl Law {
    /// Returns the number of the law, from 1.
    pub fn number(self) -> u8
        ensures { result ≡ law_number self }
    {
        match self {
            Law::SecondChild => 1,
            Law::OutOfStage => 2,
            Law::OutOfTurn => 3,
            Law::BesideExcluded => 4,
            Law::NotSettled => 5,
            Law::RespawnLimit => 6,
            Law::SignalNotDue => 7,
        }
    }

    /// Returns the message for a breach of the law.
    pub fn words(self) -> &'static str
        ensures { result.now ≡ law_words self }
    {
        match self {
            Law::SecondChild => "the id has an unreaped child",
            Law::OutOfStage => "the id has no entry that starts in the stage",
            Law::OutOfTurn => "init waits for an earlier entry",
            Law::BesideExcluded => "an excluded child is unreaped",
            Law::NotSettled => "the level is not settled",
            Law::RespawnLimit => "the respawn limit is violated",
            Law::SignalNotDue => "the signal is not due",
        }
    }
}

impl fmt::Display for Law {
    ghost use Rattle.std.specs.Prelude.{Some};
    ghost use Rattle.trace_check.specs.Laws.{law_words};

    ghost output = { λ law. Some (law_words law) };

    fn fmt<W: fmt::Write>(&self, f: &mut fmt::Formatter<W>) -> fmt::Result {
        f.write_str(self.words())
    }
}

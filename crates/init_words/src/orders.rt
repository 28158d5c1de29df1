//! Orders from init to its host, the answers to them, signals, and power events.

ghost use Rattle.std.specs.Prelude.{◌≡◌};
ghost use Rattle.init_words.specs.Orders.{answers};

use crate::children::{ChildNumber, Status};

/// The kind of an order: what init asks the system to do for an entry.
#[derive(Clone, Copy, PartialEq, Eq)]
pub enum OrderKind {
    Start,
    Look,
    Term,
    Kill,
}

/// The system's answer to an order.
#[derive(Clone, Copy, PartialEq, Eq)]
pub enum Answer {
    /// To a start: the child was started and has this number.
    Born(ChildNumber),
    /// To a start: it failed.
    NotBorn,
    /// To a look: the child had ended, and has now been reaped.
    Ended(Status),
    /// To a look: there was nothing to reap.
    Alive,
    /// To a look: it failed.
    NoLook,
    /// To a signal: it was sent.
    Hit,
    /// To a signal: it could not be sent.
    Miss,
}

impl Answer {
    /// Returns whether this answer fits an order of this kind.
    pub fn answers(self, ask: OrderKind) -> bool
        ensures { result ≡ answers self ask }
    {
        match (self, ask) {
            (Answer::Born(_) | Answer::NotBorn, OrderKind::Start) => true,
            (Answer::Ended(_) | Answer::Alive | Answer::NoLook, OrderKind::Look) => true,
            (Answer::Hit | Answer::Miss, OrderKind::Term | OrderKind::Kill) => true,
            _ => false,
        }
    }
}

/// The two signals that stop a child (init(8)).
#[derive(Clone, Copy, PartialEq, Eq)]
pub enum SignalKind {
    Term,
    Kill,
}

/// A power event (initreq.h): the power failed, the battery is almost empty, the power is back.
#[derive(Clone, Copy, PartialEq, Eq)]
pub enum PowerKind {
    Fail,
    FailNow,
    Ok,
}

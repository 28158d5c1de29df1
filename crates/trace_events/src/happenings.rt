//! The events of a run: steps of init, answers of the system, requests, clock readings, hand-overs.

use init_words::{ChildNumber, Id, Letter, Level, OrderKind, PowerKind, Stage, Status};
use initctl_frame::HeardRequest;
use inittab_text::Table;

/// One happening of a run: a line of its trace.
///
/// `NewTable` and `Enter` to `Settle` are acts of init, `Birth` to `Miss` are acts of the system, and the others are
/// exchanged between the two. Times are in whole seconds; child numbers are those of the system.
#[derive(Drop)]
pub enum Happening<T = Table> {
    /// Init adopts this table.
    NewTable(T),
    /// Init could not reread inittab.
    NotRead,
    /// Init enters a stage, with this number of seconds between SIGTERM and SIGKILL.
    Enter(Stage, u16),
    /// Init calls the ondemand entries of a letter.
    Call(Letter),
    /// Init calls the entries for a power event.
    Power(PowerKind),
    /// Init gives the system an order about an entry.
    Asked(Id, OrderKind),
    /// Init holds an entry that respawns too fast for five minutes.
    Hold(Id),
    /// Init announces that the runlevel is settled.
    Settle(Level),
    /// The system started a child.
    Birth(Id, ChildNumber),
    /// A start failed.
    NoBirth(Id),
    /// The child with this number died.
    Death(ChildNumber),
    /// A look found that the child had died, and reaped it.
    Reaped(Id, ChildNumber, Status),
    /// A look found nothing to reap.
    Still(Id),
    /// A look failed.
    NoLook(Id),
    /// The system sent the signal.
    Hit(Id),
    /// The system could not send the signal.
    Miss(Id),
    /// Init learned what the system did about the order for this id.
    Told(Id),
    /// A clock reading, in seconds.
    Clock(u64),
    /// A round begins, in which init looks at each child.
    Nudge,
    /// Init received a request.
    Got(HeardRequest),
    /// Init was asked to re-execute, and tried to hand over its state.
    Handed(Handed),
}

/// The result of handing over init's state.
#[derive(Clone, Copy, PartialEq, Eq)]
pub enum Handed {
    /// The saved state came back complete, and init resumed from it.
    Whole,
    /// Only this number of bytes of the saved state came back.
    Cut(u64),
    /// An older saved state came back, of this generation.
    Older(u64),
    /// The state could not be saved, passed on or resumed from.
    Failed,
}

/// A happening whose table is allocated with `A`.
pub type HappeningIn<A> = Happening<Table<A>>;

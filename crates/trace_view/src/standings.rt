//! The state of an entry: everything that can prevent its start.

use crate::wishes::Wish;
use init_words::{ChildNumber, Id, OrderKind};

/// An excluded child, with the id for which it was born.
#[derive(Clone, Copy)]
pub struct Excluded {
    pub id: Id,
    pub number: ChildNumber,
}

/// The state of an entry of the table: everything that can prevent its start. Times are in seconds.
#[derive(Clone, Copy)]
pub struct Standing {
    /// Whether it starts in the stage in force.
    pub starts: bool,
    /// The number of its kept child, whose end init has not learned of, if any.
    pub child: Option<ChildNumber>,
    /// Whether that child is excluded.
    pub stops: bool,
    /// Whether init has entered Boot.
    pub booted: bool,
    /// Whether a child of the entry was born before the first level, when the entry had the same action.
    pub ran: bool,
    /// The first entry of the table that init waits for.
    pub awaited: Option<Id>,
    /// The open order for the entry.
    pub order: Option<OrderKind>,
    /// Whether its action asks for a start.
    pub wanted: bool,
    /// Whether a power event or a letter named it since the last stage or table.
    pub named: bool,
    /// The first earlier entry that init waits for.
    pub owed: Option<Id>,
    /// The youngest excluded child of any id.
    pub excluded: Option<Excluded>,
    /// The pending request that init carries out first.
    pub wish: Option<Wish>,
    /// The time since which the entry has been held.
    pub hold: Option<u64>,
    /// Whether the entry was started ten times in two minutes, so that init holds it next.
    pub full: bool,
}

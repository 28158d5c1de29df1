//! Init's records, one per id of inittab(5): the child that init knows of, the unanswered order, and the starts and
//! signals since the stage was entered.
//!
//! A `Slots` keeps them by id, in record order: first those of the table's entries, then those of ids that left the
//! table and still have a child. It makes no decisions: its caller reports what was ordered, answered and entered.
//!
//! `test_core` tests this crate. All crates of the core rely on record order, which is proved. You may implement the
//! indexes and the counts differently if the invariant of `Slots` still covers them.
#![tactic(auto)]

mod adopting;
mod children;
mod counts;
mod index;
mod rebuilding;
mod slot;
mod slots;

pub use children::{KnownChild, Stop};
pub use slot::{Slot, is_excluded};
pub use slots::Slots;

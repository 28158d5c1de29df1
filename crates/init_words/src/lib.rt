//! The types that all parts of init share: ids, runlevels, stages, the table of the fifteen actions, inittab entries
//! and the files that they are read from, orders to children, and the answers to orders. Nothing in this crate
//! allocates memory.
#![tactic(auto)]

mod actions;
mod children;
mod entries;
mod ids;
mod levels;
mod limits;
mod orders;
mod parts;
mod refusals;
mod stages;

pub use actions::{ACTS, Act};
pub use children::{ChildNumber, Status};
pub use entries::{Entry, MARK_LIMIT, PROCESS_LIMIT, lives, starts, waited, without_plus};
pub use ids::{ID_LIMIT, Id};
pub use levels::{Letter, Level, Mark, names};
pub use limits::{GRACE, GRACE_LIMIT};
pub use orders::{Answer, OrderKind, PowerKind, SignalKind};
pub use parts::Part;
pub use refusals::{Memory, Refusal};
pub use stages::Stage;

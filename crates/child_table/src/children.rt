//! A child as its record describes it, and the progress of stopping it.

use init_words::{Act, ChildNumber};

/// A child that init knows of.
#[derive(Clone, Copy, PartialEq, Eq)]
pub struct KnownChild {
    pub number: ChildNumber,
    /// The action that the table had for its id when it was born.
    pub act: Option<Act>,
}

/// The progress of stopping an excluded child (init(8)): SIGTERM comes first, then SIGKILL.
#[derive(Clone, Copy, PartialEq, Eq)]
pub enum Stop {
    /// No signal was sent yet.
    Due,
    /// SIGTERM was sent at this time, in seconds.
    Termed(u64),
    /// SIGKILL was sent at this time, in seconds.
    Killed(u64),
}

//! The stages of a machine: sysinit, boot, and the runlevels.

use crate::levels::Level;

/// The stage that init is in: the two stages of booting, then a runlevel (init(8)).
#[derive(Clone, Copy, PartialEq, Eq)]
pub enum Stage {
    Sysinit,
    Boot,
    Run(Level),
}

//! The requests that init receives, and the reasons for ignoring one.

use crate::signs::Sign;
use init_words::{Letter, Level, PowerKind};

/// What a request block asks of init (initreq.h, telinit(8)).
#[derive(Clone, Copy, PartialEq, Eq)]
pub enum HeardRequest {
    /// Change to the runlevel, with this number of seconds between SIGTERM and SIGKILL, 0 to 3,600.
    Level(Level, u16),
    /// Start the ondemand entries of the letter.
    Call(Letter),
    /// Read inittab again.
    Reload,
    /// Re-execute init and keep its state.
    Reexec,
    /// A power event.
    Power(PowerKind),
    /// The block is ignored, for this reason.
    Nothing(Cause),
}

/// The reason why a request block is ignored.
#[derive(Clone, Copy, PartialEq, Eq)]
pub enum Cause {
    /// The first int is not the magic number.
    Magic,
    /// The command is not defined in initreq.h.
    Unknown,
    /// The command is defined in initreq.h, but this init does not support it.
    LeftOut,
    /// The block is a RUNLVL request, but telinit(8) does not accept its character.
    Character,
}

/// A request that can be sent to init in a block.
#[derive(Clone, Copy, PartialEq, Eq)]
pub enum Request {
    /// RUNLVL of initreq.h: a character of telinit(8), and the seconds between SIGTERM and SIGKILL.
    Runlvl(Sign, u16),
    /// POWERFAIL, POWERFAILNOW or POWEROK of initreq.h.
    Power(PowerKind),
}

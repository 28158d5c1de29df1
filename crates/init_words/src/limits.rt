//! The time between SIGTERM and SIGKILL.

/// The default time between SIGTERM and SIGKILL, in seconds (init(8)).
pub const GRACE: u16 = 5;

/// The maximum time between SIGTERM and SIGKILL, in seconds.
pub const GRACE_LIMIT: u16 = 3600;

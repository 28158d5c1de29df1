//! The exit statuses of the programs.

/// Exit status: success.
pub const DONE: u8 = 0;
/// Exit status: the command line, or something that it names, was rejected.
pub const REFUSED: u8 = 1;
/// Exit status: the input breaks a rule that it is checked against.
pub const UNLAWFUL: u8 = 2;
/// Exit status: a limit of the program was reached.
pub const LIMIT_REACHED: u8 = 3;
/// Exit status: a file or the output failed, or memory ran out.
pub const DEVICE_FAULT: u8 = 4;

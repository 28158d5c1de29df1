//! The number of a child, and the status with which it ended.

use std::marker::Model;

/// The number that the system gave to a child.
#[derive(Clone, Copy, Debug, PartialEq, Eq)]
pub struct ChildNumber(pub u32);

impl Model for ChildNumber {
    ghost use Rattle.std.specs.Prelude.{ℕ};

    ghost Value = { ℕ };

    ghost view = { λ child. child.0 };

    ghost inverse = { λ number. record { 0 = number } };
}

/// How a child ended: by exiting with a status, or killed by a signal.
#[derive(Clone, Copy, PartialEq, Eq)]
pub enum Status {
    Exit(u8),
    Killed,
}

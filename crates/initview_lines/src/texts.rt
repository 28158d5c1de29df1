//! A byte string that owns its memory.

ghost use Rattle.std.specs.Prelude.{◌≡◌, IfOk};

use std::alloc::{AllocError, Global};
use std::marker::Model;

/// A byte string that owns its memory.
#[derive(Drop)]
pub struct Bytes {
    text: Vec<u8>,
}

impl Model for Bytes {
    ghost use Rattle.std.specs.Prelude.{ℕ, List};

    ghost Value = { List ℕ };

    ghost view = { λ bytes. bytes.text.items };
}

impl Bytes {
    /// Creates a byte string from an existing text, without copying it.
    pub fn of(text: Vec<u8>) -> Bytes
        ensures { result ≡ text.items }
    {
        Bytes { text }
    }

    /// Creates a byte string with a copy of a text.
    pub fn copy_of(alloc: Global, text: &[u8]) -> Result<Bytes, AllocError>
        ensures { IfOk result (λ bytes. bytes ≡ text.now) }
    {
        Ok(Bytes {
            text: Vec::from_slice(alloc, text)?,
        })
    }

    pub(crate) fn as_slice(&self) -> &[u8]
        ensures { result.now ≡ self.now }
    {
        self.text.as_slice()
    }
}

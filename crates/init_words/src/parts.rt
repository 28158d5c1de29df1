//! One file of an inittab: its name and its contents.

use std::alloc::{Allocator, Global};
use std::marker::Model;

/// A file that a table is read from: its name and its bytes.
#[derive(Drop)]
pub struct Part<A: Allocator = Global> {
    pub name: String<A>,
    pub bytes: Vec<u8, A>,
}

impl<A: Allocator> Model for Part<A> {
    ghost use Rattle.std.specs.Prelude.{string_bytes};
    ghost use Rattle.init_words.specs.Parts.{NamedText};

    ghost Value = { NamedText };

    ghost view = { λ part. record { name = string_bytes part.name; bytes = part.bytes.items } };
}

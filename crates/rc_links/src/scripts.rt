//! An init script: its name and its header.

ghost use Rattle.std.specs.Prelude.{◌≡◌, string_bytes};

use lsb_header::Header;
use std::alloc::{Allocator, Global};
use std::marker::Model;

/// An init script: the name of its file and its header.
#[derive(Drop)]
pub struct Script<A: Allocator = Global> {
    name: String<A>,
    header: Header<A>,
}

impl<A: Allocator> Model for Script<A> {
    ghost use Rattle.std.specs.Prelude.{string_bytes};
    ghost use Rattle.rc_links.specs.ScriptText.{ScriptText};

    ghost Value = { ScriptText };

    ghost view = { λ s. record { name = string_bytes s.name; header = s.header } };
}

impl<A: Allocator> Script<A> {
    /// Creates a script with this name and header.
    pub fn new(name: String<A>, header: Header<A>) -> Script<A>
        ensures { result ≡ record { name = string_bytes name; header = header } }
    {
        Script { name, header }
    }

    /// Returns the name of its file.
    pub fn name(&self) -> &str
        ensures { result.now ≡ self.now.name }
    {
        self.name.as_str()
    }

    /// Returns its header.
    pub fn header(&self) -> &Header<A>
        ensures { result.now ≡ self.now.header }
    {
        &self.header
    }
}

//! Texts in memory, each stored under a path, for tests and examples.

ghost use Rattle.std.specs.Prelude.{◌≡◌, ◌∷◌, ◌++◌, [], OnOk, OnErr};
ghost use Rattle.program_io.specs.Known.{kept_at};

use crate::takers::PieceTaker;
use crate::texts::Texts;
use std::alloc::{AllocError, Allocator, Global};
use std::io;
use std::io::ErrorKind;
use std::marker::Model;

/// A text and its path.
#[derive(Drop)]
pub(crate) struct KeptText<A: Allocator> {
    path: String<A>,
    text: Vec<u8, A>,
}

impl<A: Allocator> Model for KeptText<A> {
    ghost use Rattle.std.specs.Prelude.{string_bytes};
    ghost use Rattle.program_io.specs.Known.{Kept};

    ghost Value = { Kept };

    ghost view = { λ k. record { path = string_bytes k.path; text = k.text.items } };
}

/// Texts in memory, each stored under a path. Contracts know all of them. They are for tests: no program uses them.
#[derive(Drop)]
pub struct KeptTexts<A: Allocator = Global> {
    texts: Vec<KeptText<A>, A>,
}

impl<A: Allocator> Model for KeptTexts<A> {
    ghost use Rattle.std.specs.Prelude.{List};
    ghost use Rattle.program_io.specs.Known.{Kept};

    ghost Value = { List Kept };

    ghost view = { λ k. k.texts.items };
}

impl<A: Allocator + Copy> KeptTexts<A> {
    /// Creates an empty collection. This allocates no memory.
    pub fn new(alloc: A) -> KeptTexts<A>
        ensures { result ≡ [] }
    {
        KeptTexts {
            texts: Vec::new(alloc),
        }
    }

    /// Adds a text. If two texts have the same path, the first one is used. If memory runs out, nothing changes.
    pub fn keep(&mut self, path: &str, text: &[u8]) -> Result<(), AllocError>
        ensures ok { OnOk result (self.new ≡ self.old ++ kept_at path.now text.now ∷ []) }
        ensures err { OnErr result (self.new ≡ self.old) }
    {
        let alloc = *self.texts.allocator();
        let path = String::from_str(alloc, path)?;
        let text = Vec::from_slice(alloc, text)?;
        self.texts.push(KeptText { path, text })?;
        Ok(())
    }
}

impl<A: Allocator> KeptTexts<A> {
    ghost use Rattle.std.specs.Prelude.{◌≡◌, option_map};
    ghost use Rattle.program_io.specs.Known.{text_in};

    /// Returns the text under a path.
    fn at(&self, path: &str) -> Option<&[u8]>
        ensures { option_map (λ text. text.now) result ≡ text_in self.now path.now }
    {
        for kept in &self.texts {
            if kept.path.as_str() == path {
                return Some(kept.text.as_slice());
            }
        }
        None
    }
}

impl<A: Allocator> Texts for KeptTexts<A> {
    ghost use Rattle.std.specs.Prelude.{◌≡◌, ◌^◌, ◌<◌, ℕ, List, [], length, Some, None, IfOk, IfErr, IsSome, OnOk};
    ghost use Rattle.std.specs.IoError.{error_kind};
    ghost use Rattle.program_io.specs.Known.{Kept, text_in};

    ghost text_at = { λ (kept : List Kept) path. text_in kept path };

    /// Returns the text under the path. If there is none, the error is `NotFound`.
    fn read<B: Allocator>(&self, alloc: B, path: &str) -> io::Result<Vec<u8, B>>
        ensures text { IfOk result (λ text. text_in self.now path.now ≡ Some text.items) }
        ensures refused { IfErr result (λ why. IsSome (text_in self.now path.now)
            → error_kind why ≡ ErrorKind.OutOfMemory) }
        ensures absent { IfErr result (λ why. text_in self.now path.now ≡ None
            → error_kind why ≡ ErrorKind.NotFound) }
    {
        match self.at(path) {
            Some(text) => Ok(Vec::from_slice(alloc, text)?),
            None => Err(io::Error::from(ErrorKind::NotFound)),
        }
    }

    fn read_file<B: Allocator>(&self, alloc: B, path: &str) -> io::Result<Vec<u8, B>> {
        self.read(alloc, path)
    }

    /// Passes the text under the path to the taker as one piece. If there is none, the error is `NotFound`.
    fn read_pieces<P: PieceTaker>(&self, path: &str, taker: &mut P) -> io::Result<()>
        ensures text { OnOk result ((text : List ℕ) × (length text < 2 ^ 64)
            × (text_in self.now path.now ≡ Some text)
            × (P.has_taken taker.old [] → P.has_taken taker.new text)) }
        ensures refused { IfErr result (λ why. IsSome (text_in self.now path.now)
            → error_kind why ≡ ErrorKind.OutOfMemory) }
        ensures absent { IfErr result (λ why. text_in self.now path.now ≡ None
            → error_kind why ≡ ErrorKind.NotFound) }
    {
        match self.at(path) {
            Some(text) => Ok(taker.take_piece(text)?),
            None => Err(io::Error::from(ErrorKind::NotFound)),
        }
    }
}

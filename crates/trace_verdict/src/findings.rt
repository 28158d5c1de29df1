//! The verdict on the text of a trace.

ghost use Rattle.std.specs.Prelude.{◌≡◌};

use std::alloc::{Allocator, Global};
use std::marker::Model;
use trace_check::Law;

/// The verdict on the text of a trace.
#[derive(Drop)]
pub enum Finding<B = Breach> {
    /// No happening breaks a law.
    Lawful,
    /// The first happening that breaks a law.
    Breach(B),
    /// No happening begins at the line with this number, counted from 1.
    Torn(u64),
}

/// The first happening of a trace that breaks a law.
#[derive(Drop)]
pub struct Breach<A: Allocator = Global> {
    position: u64,
    law: Law,
    line: u64,
    text: Vec<u8, A>,
}

impl<A: Allocator> Model for Breach<A> {
    ghost use Rattle.trace_verdict.specs.Answers.{Named};

    ghost Value = { Named };

    ghost view = { λ b. record {
      position = b.position;
      law = b.law;
      line = b.line;
      text = b.text.items;
    } };
}

impl<A: Allocator> Breach<A> {
    /// Creates a breach from its parts.
    pub(crate) fn new(position: u64, law: Law, line: u64, text: Vec<u8, A>) -> Breach<A>
        ensures { result
            ≡ record { position = position; law = law; line = line; text = text.items } }
    {
        Breach {
            position,
            law,
            line,
            text,
        }
    }

    /// Returns the position of the happening in the trace, counted from 0.
    pub fn position(&self) -> u64
        ensures { result ≡ self.now.position }
    {
        self.position
    }

    /// Returns the lowest-numbered law that the happening breaks.
    pub fn law(&self) -> Law
        ensures { result ≡ self.now.law }
    {
        self.law
    }

    /// Returns the number of the line at which the happening begins, counted from 1.
    pub fn line(&self) -> u64
        ensures { result ≡ self.now.line }
    {
        self.line
    }

    /// Returns the text of the happening.
    pub fn text(&self) -> &[u8]
        ensures { result.now ≡ self.now.text }
    {
        self.text.as_slice()
    }
}

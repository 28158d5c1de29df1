//! Lists of the files of an inittab, and copies of them.

ghost use Rattle.std.specs.Prelude.{◌≡◌, [], IfOk};

use init_words::{Memory, Part};
use std::alloc::{Allocator, Global};
use std::marker::Model;

/// The files of a table, as a list that owns its memory.
#[derive(Drop)]
pub struct PartList<A: Allocator = Global> {
    parts: Vec<Part<A>, A>,
}

impl<A: Allocator> Model for PartList<A> {
    ghost use Rattle.std.specs.Prelude.{List};
    ghost use Rattle.init_words.specs.Parts.{NamedText};

    ghost Value = { List NamedText };

    ghost view = { λ list. list.parts.items };
}

impl<A: Allocator> PartList<A> {
    /// Creates an empty list. This allocates no memory.
    pub fn new(alloc: A) -> PartList<A>
        ensures { result ≡ [] }
    {
        PartList {
            parts: Vec::new(alloc),
        }
    }

    /// Creates the list of these files.
    pub fn of(parts: Vec<Part<A>, A>) -> PartList<A>
        ensures { result ≡ parts.items }
    {
        PartList { parts }
    }

    /// Returns the files.
    pub fn as_slice(&self) -> &[Part<A>]
        ensures { result.now ≡ self.now }
    {
        self.parts.as_slice()
    }
}

/// Copies a file.
fn part_copy<A: Allocator + Copy, B: Allocator>(alloc: A, part: &Part<B>) -> Result<Part<A>, Memory>
    ensures { IfOk result (λ copy. copy ≡ part.now) }
{
    Ok(Part {
        name: String::from_str(alloc, &part.name)?,
        bytes: Vec::from_slice(alloc, &part.bytes)?,
    })
}

/// Copies files into memory of this allocator.
pub fn parts_copy<A: Allocator + Copy, B: Allocator>(
    alloc: A,
    parts: &[Part<B>],
) -> Result<Vec<Part<A>, A>, Memory>
    ensures { IfOk result (λ copy. copy.items ≡ parts.now) }
{
    let mut copy = Vec::new(alloc);
    for part in parts {
        copy.push(part_copy(alloc, part)?)?;
    }
    Ok(copy)
}

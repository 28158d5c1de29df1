//! The warnings about the files of an inittab.

ghost use Rattle.std.specs.Prelude.{◌≡◌, ◌++◌, IfOk, OnOk};
ghost use Rattle.text_lines.specs.Lines.{lines_of};
ghost use Rattle.init_words.specs.Parts.{texts_of};
ghost use Rattle.inittab_lint.specs.Warnings.{warnings_of, warnings_of_lines};

use crate::traps::{LineWarning, add_line};
use init_words::Part;
use std::alloc::{AllocError, Allocator};
use text_lines::first_line;

/// Adds the warnings about the lines of a text.
fn add_text<A: Allocator>(
    found: &mut Vec<LineWarning, A>,
    part: usize,
    text: &[u8],
) -> Result<(), AllocError>
    ensures { OnOk result (found.new.items
        ≡ found.old.items ++ warnings_of_lines part 1 (lines_of text.now)) }
{
    let mut rest = text;
    let mut number = 0;
    while !rest.is_empty() {
        let (line, more) = first_line(rest);
        number += 1;
        add_line(found, part, number, line)?;
        rest = more;
    }
    Ok(())
}

/// Returns the warnings about the lines of an inittab's files, in order. A warning depends only on the fields of the
/// line, not on whether init accepts the line.
pub fn warnings<A: Allocator>(alloc: A, parts: &[Part]) -> Result<Vec<LineWarning, A>, AllocError>
    ensures { IfOk result (λ found. found.items ≡ warnings_of (texts_of parts.now)) }
{
    let mut found = Vec::new(alloc);
    let mut rest = parts;
    let mut number = 0;
    while let Some((part, others)) = rest.split_first() {
        add_text(&mut found, number, &part.bytes)?;
        number += 1;
        rest = others;
    }
    Ok(found)
}

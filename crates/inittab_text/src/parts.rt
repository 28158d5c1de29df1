//! Reads an inittab that consists of several files as one table.

ghost use Rattle.std.specs.Prelude.{◌≡◌, ◌≤◌, ◌++◌, ◌↔◌, map, length, IfOk, OnOk, IfErr, IsErrOf, nat_lt};
ghost use Rattle.text_lines.specs.Lines.{lines_of};
ghost use Rattle.init_words.specs.Parts.{texts_of};
ghost use Rattle.inittab_text.specs.declared.reading.TheConstants.{TEXT_LIMIT};
ghost use Rattle.inittab_text.specs.declared.parts.TheConstants.{PART_LIMIT};
ghost use Rattle.inittab_text.specs.Reading.{entries_from, faults_from};
ghost use Rattle.inittab_text.specs.Parts.{AreTooMany, AreTooLong, size_of_texts, in_part};
ghost use Rattle.inittab_text.specs.Parts.{table_of_texts, faults_of_parts};

use crate::faults::{LineFault, PartFault, TableFault};
use crate::reading::{TEXT_LIMIT, take_text};
use crate::tables::Table;
use init_words::Part;
use std::alloc::Allocator;

/// The maximum number of parts of an inittab.
pub const PART_LIMIT: usize = 256;

/// Returns whether all parts together exceed the maximum length of a text.
fn are_too_long<A: Allocator>(parts: &[Part<A>]) -> bool
    ensures { result ≡ nat_lt TEXT_LIMIT (size_of_texts (texts_of parts.now)) }
{
    let mut room = TEXT_LIMIT;
    for part in parts {
        if part.bytes.len() > room {
            return true;
        }
        room -= part.bytes.len();
    }
    false
}

/// Adds the faults of a part's lines to the faults of all parts.
fn add_faults<A: Allocator>(
    faults: &mut Vec<PartFault, A>,
    part: u32,
    found: &[LineFault],
) -> Result<(), TableFault>
    ensures faults { OnOk result
        (faults.new.items ≡ faults.old.items ++ map (in_part part) found.now) }
    ensures memory { IfErr result (λ fault. fault ≡ TableFault.Memory) }
{
    for fault in found {
        faults.push(PartFault {
            part,
            line: fault.line,
            kind: fault.kind,
        })?;
    }
    Ok(())
}

/// Adds the entries of a part's lines to the table, and the faults of its other lines to `faults`.
fn take_part<A: Allocator + Copy>(
    alloc: A,
    table: &mut Table<A>,
    faults: &mut Vec<PartFault, A>,
    part: u32,
    text: &[u8],
) -> Result<(), TableFault>
    requires { length text.now ≤ TEXT_LIMIT }
    ensures table { OnOk result (table.new ≡ entries_from table.old (lines_of text.now)) }
    ensures faults { OnOk result (faults.new.items
        ≡ faults.old.items ++ map (in_part part) (faults_from table.old 1 (lines_of text.now))) }
    ensures memory { IfErr result (λ fault. fault ≡ TableFault.Memory) }
{
    let found = take_text(alloc, table, text)?;
    add_faults(faults, part, &found)
}

/// Reads parts whose number and total size are within the limits.
fn read_fitting<A: Allocator + Copy, B: Allocator>(
    alloc: A,
    parts: &[Part<B>],
) -> Result<(Table<A>, Vec<PartFault, A>), TableFault>
    requires few { length parts.now ≤ PART_LIMIT }
    requires short { size_of_texts (texts_of parts.now) ≤ TEXT_LIMIT }
    ensures table { IfOk result (λ got. got.0 ≡ table_of_texts (texts_of parts.now)) }
    ensures faults { IfOk result (λ got. got.1.items ≡ faults_of_parts (texts_of parts.now)) }
    ensures memory { IfErr result (λ fault. fault ≡ TableFault.Memory) }
{
    let mut table = Table::new(alloc);
    let mut faults = Vec::new(alloc);
    let mut number = 0;
    for part in parts {
        take_part(alloc, &mut table, &mut faults, number, &part.bytes)?;
        number += 1;
    }
    Ok((table, faults))
}

/// Reads an inittab(5) that consists of several parts, in order. Returns the entries of the lines that pass all checks,
/// and the faults of the other lines.
///
/// A line never spans two parts. An id must not occur in an earlier part. Fails if there are more than 256 parts, or if
/// they have more than 1,048,576 bytes together.
pub fn read_parts<A: Allocator + Copy, B: Allocator>(
    alloc: A,
    parts: &[Part<B>],
) -> Result<(Table<A>, Vec<PartFault, A>), TableFault>
    ensures table { IfOk result (λ got. got.0 ≡ table_of_texts (texts_of parts.now)) }
    ensures faults { IfOk result (λ got. got.1.items ≡ faults_of_parts (texts_of parts.now)) }
    ensures parts { IsErrOf result TableFault.Parts ↔ AreTooMany (texts_of parts.now) }
    ensures too_long { IsErrOf result TableFault.TooLong ↔ AreTooLong (texts_of parts.now) }
{
    if parts.len() > PART_LIMIT {
        return Err(TableFault::Parts);
    }
    if are_too_long(parts) {
        return Err(TableFault::TooLong);
    }
    read_fitting(alloc, parts)
}

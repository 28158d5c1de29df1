//! Reads the text of an inittab line by line (inittab(5)).

ghost use Rattle.std.specs.Prelude.{◌≡◌, ◌≢◌, ◌<◌, ◌≤◌, ◌++◌, ◌∷◌, [], ◌↔◌, false, Err, map, length, IfOk, IfErr, OnOk, IsErrOf};
ghost use Rattle.text_lines.specs.Lines.{has_byte, lines_of};
ghost use Rattle.inittab_text.specs.Checks.{verdict_of};
ghost use Rattle.inittab_text.specs.Reading.{entries_after, entries_from, faults_at, faults_from};
ghost use Rattle.inittab_text.specs.Reading.{table_of_text, faults_of_text};
ghost use Rattle.inittab_text.specs.Parts.{in_part, table_of_texts, faults_of_parts};

use crate::checks::verdict_of;
use crate::faults::{LineFault, TableFault};
use crate::tables::Table;
use std::alloc::Allocator;
use text_lines::first_line;

/// The maximum length of a text in bytes.
pub const TEXT_LIMIT: usize = 1_048_576;

/// Adds the entry of a line to the table, or the fault of the line to `faults`.
fn take_line<A: Allocator>(
    table: &mut Table<A>,
    faults: &mut Vec<LineFault, A>,
    number: u32,
    line: &[u8],
) -> Result<(), TableFault>
    requires { has_byte 10 line.now ≡ false }
    ensures table { let verdict = verdict_of table.old line.now in
        OnOk result (table.new ≡ entries_after table.old verdict) }
    ensures faults { let verdict = verdict_of table.old line.now in
        OnOk result (faults.new.items ≡ faults.old.items ++ faults_at number verdict) }
    ensures memory { IfErr result (λ fault. fault ≡ TableFault.Memory) }
{
    match verdict_of(table, line) {
        Ok(None) => {}
        Ok(Some(entry)) => table.push(entry)?,
        Err(kind) => faults.push(LineFault { line: number, kind })?,
    }
    Ok(())
}

/// Adds the entries of a text's lines to the table, and returns the faults of the other lines.
pub(crate) fn take_text<A: Allocator + Copy>(
    alloc: A,
    table: &mut Table<A>,
    text: &[u8],
) -> Result<Vec<LineFault, A>, TableFault>
    requires { length text.now ≤ TEXT_LIMIT }
    ensures table { OnOk result (table.new ≡ entries_from table.old (lines_of text.now)) }
    ensures faults { IfOk result
        (λ faults. faults.items ≡ faults_from table.old 1 (lines_of text.now)) }
    ensures memory { IfErr result (λ fault. fault ≡ TableFault.Memory) }
{
    let mut faults = Vec::new(alloc);
    let mut rest = text;
    let mut number = 0;
    while !rest.is_empty() {
        let (line, more) = first_line(rest);
        number += 1;
        take_line(table, &mut faults, number, line)?;
        rest = more;
    }
    Ok(faults)
}

/// Reads an inittab(5). Returns the entries of the lines that pass all checks, and the faults of the others, in line
/// order.
///
/// Fails if the text is longer than 1,048,576 bytes. The result is the same as `read_parts` with this text as the only
/// part.
pub fn read<A: Allocator + Copy>(
    alloc: A,
    text: &[u8],
) -> Result<(Table<A>, Vec<LineFault, A>), TableFault>
    ensures table { IfOk result (λ got. got.0 ≡ table_of_text text.now) }
    ensures faults { IfOk result (λ got. got.1.items ≡ faults_of_text text.now) }
    ensures too_long { IsErrOf result TableFault.TooLong ↔ (TEXT_LIMIT < length text.now) }
    ensures one_part { IfOk result (λ got. (got.0 ≡ table_of_texts (text.now ∷ []))
        × (map (in_part 0) got.1.items ≡ faults_of_parts (text.now ∷ []))) }
    ensures no_parts { result ≢ Err TableFault.Parts }
{
    if text.len() > TEXT_LIMIT {
        return Err(TableFault::TooLong);
    }
    let mut table = Table::new(alloc);
    let faults = take_text(alloc, &mut table, text)?;
    Ok((table, faults))
}

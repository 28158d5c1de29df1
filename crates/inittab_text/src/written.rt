//! Reads a table back from its written form. Any other text is rejected.

ghost use Rattle.std.specs.Prelude.{◌≡◌, ◌≢◌, List, option_map, Some, false, true, IfOk, IfSome, IfNone, OnOk};
ghost use Rattle.init_words.specs.declared.entries.Entry.{Entry};
ghost use Rattle.text_lines.specs.Lines.{has_byte};
ghost use Rattle.inittab_text.specs.Checks.{verdict_of};
ghost use Rattle.inittab_text.specs.Reading.{entries_after, table_of_text};
ghost use Rattle.inittab_text.specs.Written.{is_table, table_begun, text_of, table_written};

use crate::checks::verdict_of;
use crate::tables::Table;
use crate::writing::write;
use init_words::Memory;
use std::alloc::Allocator;
use text_lines::{after_lines, first_line};

/// Adds the entry of a line to the table, if the line is an entry.
fn keep_line<A: Allocator>(table: &mut Table<A>, line: &[u8]) -> Result<(), Memory>
    requires { has_byte 10 line.now ≡ false }
    ensures { OnOk result (table.new ≡ entries_after table.old (verdict_of table.old line.now)) }
{
    if let Ok(Some(entry)) = verdict_of(table, line) {
        table.push(entry)?;
    }
    Ok(())
}

/// Returns the table of all lines that are entries.
fn read_entries<A: Allocator + Copy>(alloc: A, text: &[u8]) -> Result<Table<A>, Memory>
    ensures { IfOk result (λ table. table ≡ table_of_text text.now) }
{
    let mut table = Table::new(alloc);
    let mut rest = text;
    while !rest.is_empty() {
        let (line, more) = first_line(rest);
        keep_line(&mut table, line)?;
        rest = more;
    }
    Ok(table)
}

/// Returns the table read from the text, if writing that table yields the same text.
fn table_written<A: Allocator + Copy>(alloc: A, text: &[u8]) -> Result<Option<Table<A>>, Memory>
    ensures { IfOk result (λ got. got ≡ table_written text.now) }
{
    let table = read_entries(alloc, text)?;
    let again = write(alloc, &table)?;
    if again.as_slice() != text {
        return Ok(None);
    }
    Ok(Some(table))
}

/// Returns the table whose written form is this text, or `None` if there is none. The text may have any length.
pub fn read_written<A: Allocator + Copy>(alloc: A, text: &[u8]) -> Result<Option<Table<A>>, Memory>
    ensures value { IfOk result (λ got. got ≡ table_written text.now) }
    ensures found { IfOk result (λ got. IfSome got (λ table. text_of table ≡ text.now)) }
    // No other table has this text.
    ensures only { IfOk result (λ got. (table : List Entry) → is_table table ≡ true
        → text_of table ≡ text.now → got ≡ Some table) }
    ensures none { IfOk result (λ got. IfNone got ((table : List Entry) → is_table table ≡ true
        → text_of table ≢ text.now)) }
{
    table_written(alloc, text)
}

/// Returns the table whose written form is the next `count` lines, and the text after them, or `None` if these lines
/// are not the written form of a table.
pub fn table_begun<A: Allocator + Copy>(
    alloc: A,
    count: usize,
    text: &[u8],
) -> Result<Option<(Table<A>, &[u8])>, Memory>
    ensures { IfOk result (λ found.
        option_map (λ parts. (parts.0, parts.1.now)) found ≡ table_begun count text.now) }
{
    let Some(rest) = after_lines(count, text) else {
        return Ok(None);
    };
    let table = read_written(alloc, &text[..text.len() - rest.len()])?;
    Ok(table.map(|table| (table, rest)))
}

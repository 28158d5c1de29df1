//! Writes a table as the text of an inittab.

ghost use Rattle.std.specs.Prelude.{◌≡◌, ◌≤◌, ◌++◌, ◌∷◌, [], length, take, IfOk, OnOk, OnErr, map};
ghost use Rattle.init_words.specs.Levels.{mark_code};
ghost use Rattle.inittab_text.specs.declared.reading.TheConstants.{TEXT_LIMIT};
ghost use Rattle.inittab_text.specs.Written.{levels_written, line_of, text_of};
ghost use Rattle.inittab_text.specs.Reading.{table_of_text, faults_of_text};

use crate::tables::Table;
use arrayvec::ArrayVec;
use init_words::{Act, Entry, MARK_LIMIT, Mark, Memory};
use std::alloc::Allocator;

/// Returns the characters of the marks.
fn codes_of(marks: &[Mark]) -> ArrayVec<u8, MARK_LIMIT>
    requires { length marks.now ≤ MARK_LIMIT }
    ensures { result.items ≡ map mark_code marks.now }
{
    let mut codes = ArrayVec::new();
    for mark in marks {
        codes.push(mark.code());
    }
    codes
}

/// Returns the runlevels field of a written entry.
fn levels_written(act: Act, marks: &[Mark]) -> ArrayVec<u8, MARK_LIMIT>
    requires { length marks.now ≤ MARK_LIMIT }
    ensures { result.items ≡ levels_written act marks.now }
{
    let mut field = codes_of(marks);
    if marks.is_empty() && !act.ignores_levels() {
        field.push(b'-');
    }
    field
}

/// Appends a field and the byte `end`. If memory allocation fails, a part of the field may have been appended.
fn write_field<A: Allocator>(text: &mut Vec<u8, A>, field: &[u8], end: u8) -> Result<(), Memory>
    ensures ok { OnOk result (text.new.items ≡ text.old.items ++ (field.now ++ end ∷ [])) }
    ensures err { OnErr result (take (length text.old.items) text.new.items ≡ text.old.items) }
{
    text.extend_from_slice(field)?;
    text.push(end)?;
    Ok(())
}

/// Appends the line of an entry. If memory allocation fails, a part of the line may have been appended.
fn write_fields<A: Allocator>(text: &mut Vec<u8, A>, entry: &Entry) -> Result<(), Memory>
    ensures ok { OnOk result (text.new.items ≡ text.old.items ++ line_of entry.now) }
    ensures err { OnErr result (take (length text.old.items) text.new.items ≡ text.old.items) }
{
    let levels = levels_written(entry.act, entry.levels.as_slice());
    write_field(text, entry.id.as_bytes(), b':')?;
    write_field(text, levels.as_slice(), b':')?;
    write_field(text, entry.act.word(), b':')?;
    write_field(text, entry.process.as_slice(), b'\n')
}

/// Appends the line of an entry, `id:runlevels:action:process` and a newline (inittab(5)). If memory allocation fails,
/// the text is left unchanged.
pub fn write_line<A: Allocator>(text: &mut Vec<u8, A>, entry: &Entry) -> Result<(), Memory>
    ensures ok { OnOk result (text.new.items ≡ text.old.items ++ line_of entry.now) }
    ensures err { OnErr result (text.new.items ≡ text.old.items) }
{
    let start = text.len();
    if write_fields(text, entry).is_err() {
        text.truncate(start);
        return Err(Memory);
    }
    Ok(())
}

/// Writes a table as an inittab(5), with one line per entry. The text is never too long to be read, and reading it
/// yields the same table without faults.
pub fn write<A: Allocator + Copy, B: Allocator>(
    alloc: A,
    table: &Table<B>,
) -> Result<Vec<u8, A>, Memory>
    ensures text { IfOk result (λ text. text.items ≡ text_of table.now) }
    ensures table { IfOk result (λ text. table_of_text text.items ≡ table.now) }
    ensures no_faults { IfOk result (λ text. faults_of_text text.items ≡ []) }
    ensures short { IfOk result (λ text. length text.items ≤ TEXT_LIMIT) }
{
    let mut text = Vec::new(alloc);
    for position in 0..table.len() {
        write_line(&mut text, table.entry(position))?;
    }
    Ok(text)
}

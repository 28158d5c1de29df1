//! The messages about the files of an inittab that is not in force yet.

ghost use Rattle.std.specs.Prelude.{◌≡◌, ◌≤◌, ◌++◌, ◌↔◌, filter, map, not, option_copied, option_map, slice_get, IfOk, IfSome, OnOk, IsErrOf};
ghost use Rattle.std.specs.List.{list_any};
ghost use Rattle.text_lines.specs.Lines.{after_lines, cut};
ghost use Rattle.init_words.specs.declared.stages.Stage.TheVariants.{Run};
ghost use Rattle.init_words.specs.Entries.{starts_of};
ghost use Rattle.init_words.specs.Parts.{texts_of};
ghost use Rattle.inittab_text.specs.Lines.{fields_of};
ghost use Rattle.inittab_text.specs.Parts.{AreTooLong, AreTooMany};
ghost use Rattle.inittab_lint.specs.Warnings.{warnings_of};
ghost use Rattle.initview_lines.specs.declared.lines.Line.TheVariants.{File};
ghost use Rattle.initview_lines.specs.Lint.{IsCursor, fault_line, fault_line_of, field_in, found_by, has_nameless, is_nameless, lacks_id, line_at, lint_in, lint_lines, meant_for, name_of, note_if, serves, text_of, told_of, up_to, warned, warning_line};

use crate::lines::{FileLine, Line};
use crate::texts::Bytes;
use init_words::{Act, Entry, Level, Part, Stage, starts};
use inittab_lint::{LineWarning, Warning, meant, program_of, warnings};
use inittab_text::{Fields, LineKind, PartFault, Table, TableFault, read_parts};
use std::alloc::{AllocError, Global};
use text_lines::{after_lines, cut, without_blanks};

/// The overall result of checking the files of an inittab.
#[derive(Clone, Copy, PartialEq, Eq)]
pub enum Findings {
    Nothing,
    /// Some warnings, but no line that init ignores.
    Warnings,
    /// At least one line that init ignores.
    Faults,
}

/// Returns the file with this number.
fn part_at(parts: &[Part], number: usize) -> Option<&Part>
    ensures { option_copied result ≡ slice_get parts.now number }
{
    let part = parts.get(number)?;
    Some(part)
}

/// Returns the name of a file.
fn name_of(part: Option<&Part>) -> &[u8]
    ensures { result.now ≡ name_of (option_copied part.entry) }
{
    match part {
        Some(part) => part.name.as_bytes(),
        None => b"",
    }
}

/// Returns the text of a file.
fn text_of(part: Option<&Part>) -> &[u8]
    ensures { result.now ≡ text_of (option_copied part.entry) }
{
    match part {
        Some(part) => part.bytes.as_slice(),
        None => b"",
    }
}

/// Returns a message about a file.
pub(crate) fn file_line(
    alloc: Global,
    part: Option<&Part>,
    told: FileLine,
) -> Result<Line, AllocError>
    ensures { IfOk result (λ line. line ≡ File (name_of (option_copied part.entry)) told) }
{
    let name = Bytes::copy_of(alloc, name_of(part))?;
    Ok(Line::File(name, told))
}

/// Adds a message about the inittab, under the name of its first file, if `so` is true.
pub(crate) fn add_note(
    lines: &mut Vec<Line>,
    alloc: Global,
    parts: &[Part],
    so: bool,
    note: FileLine,
) -> Result<(), AllocError>
    ensures { OnOk result (lines.new.items ≡ lines.old.items ++ note_if so parts.now note) }
{
    if so {
        lines.push(file_line(alloc, part_at(parts, 0), note)?)?;
    }
    Ok(())
}

/// Returns the first line of a text.
fn first_of(text: &[u8]) -> &[u8]
    ensures { result.now ≡ up_to (cut 10 text.now) text.now }
{
    match cut(b'\n', text) {
        Some((line, _)) => line,
        None => text,
    }
}

/// Returns the line with this number, counted from 1.
fn line_at(number: u32, text: &[u8]) -> &[u8]
    ensures { result.now ≡ line_at number text.now }
{
    match after_lines(number.saturating_sub(1) as usize, text) {
        Some(rest) => first_of(rest),
        None => b"",
    }
}

/// Returns the id or the action of a line, if that field is faulty.
fn field_in(kind: LineKind, line: &[u8]) -> &[u8]
    ensures { result.now ≡ field_in kind (fields_of line.now) }
{
    let Some(fields) = Fields::of(line) else {
        return b"";
    };
    match kind {
        LineKind::Id | LineKind::Twice => fields.id,
        LineKind::Action => fields.action,
        _ => b"",
    }
}

/// Returns the action that was probably meant by a field.
fn meant_for(kind: LineKind, field: &[u8]) -> Option<Act>
    ensures { result ≡ meant_for kind field.now }
{
    match kind {
        LineKind::Action => meant(field),
        _ => None,
    }
}

/// Returns the message about an ignored line, given the text of the line.
fn told_of(
    alloc: Global,
    part: Option<&Part>,
    fault: &PartFault,
    line: &[u8],
) -> Result<Line, AllocError>
    ensures { IfOk result (λ told. told ≡ told_of (option_copied part.entry) fault.now line.now) }
{
    let field = field_in(fault.kind, without_blanks(line));
    let meant = meant_for(fault.kind, field);
    let field = Bytes::copy_of(alloc, field)?;
    file_line(
        alloc,
        part,
        FileLine::LeftOut(fault.line, fault.kind, field, meant),
    )
}

/// Returns the message about an ignored line.
pub(crate) fn fault_line(
    alloc: Global,
    part: Option<&Part>,
    fault: &PartFault,
) -> Result<Line, AllocError>
    ensures { IfOk result (λ line. line ≡ fault_line (option_copied part.entry) fault.now) }
{
    told_of(alloc, part, fault, line_at(fault.line, text_of(part)))
}

/// Reports whether the line begins without an id.
fn lacks_id(line: &[u8]) -> bool
    ensures { result ≡ lacks_id line.now }
{
    match Fields::of(without_blanks(line)) {
        Some(fields) => fields.id.is_empty(),
        None => false,
    }
}

/// Returns the position at the beginning of the first file.
fn first_cursor(parts: &[Part]) -> Cursor<'_>
    ensures { IsCursor parts.now result }
{
    Cursor {
        part: 0,
        before: 0,
        rest: text_of(part_at(parts, 0)),
    }
}

/// A position in the files: the file, the number of lines before the position, and the text after it.
#[derive(Clone, Copy)]
struct Cursor<'a> {
    part: usize,
    before: usize,
    rest: &'a [u8],
}

/// Returns the nearest known position from which to reach the line after `before` lines of a file: `from`, if it is in
/// this file and not too late, or else the beginning of the file.
fn nearest<'a>(parts: &'a [Part], from: Cursor<'a>, part: usize, before: usize) -> Cursor<'a>
    ensures part { result.part ≡ part }
    ensures before { result.before ≤ before }
    ensures cursor { IsCursor parts.now from.entry → IsCursor parts.now result }
{
    if from.part == part && from.before <= before {
        from
    } else {
        Cursor {
            part,
            before: 0,
            rest: text_of(part_at(parts, part)),
        }
    }
}

/// Returns the position after this number of lines of a file.
fn cursor_after<'a>(
    parts: &'a [Part],
    from: Cursor<'a>,
    part: usize,
    before: usize,
) -> Option<Cursor<'a>>
    ensures rest { IsCursor parts.now from.entry → option_map (λ cursor. cursor.rest.now) result
        ≡ after_lines before (text_of (slice_get parts.now part)) }
    ensures cursor { IsCursor parts.now from.entry
        → IfSome result (λ cursor. IsCursor parts.now cursor) }
{
    let near = nearest(parts, from, part, before);
    let rest = after_lines(before - near.before, near.rest)?;
    Some(Cursor { part, before, rest })
}

/// Returns a line of a file, given the numbers of both, and the position from which the next line is searched for.
fn line_of<'a>(
    parts: &'a [Part],
    from: Cursor<'a>,
    part: usize,
    number: usize,
) -> (&'a [u8], Cursor<'a>)
    ensures line { IsCursor parts.now from.entry → result.0.now
        ≡ line_at number (text_of (slice_get parts.now part)) }
    ensures cursor { IsCursor parts.now from.entry → IsCursor parts.now result.1 }
{
    match cursor_after(parts, from, part, number.saturating_sub(1)) {
        Some(cursor) => (first_of(cursor.rest), cursor),
        None => (b"", from),
    }
}

/// Returns the messages about the ignored lines that have an id, and whether any ignored line has none.
fn fault_lines(
    alloc: Global,
    parts: &[Part],
    faults: &[PartFault],
) -> Result<(Vec<Line>, bool), AllocError>
    ensures { IfOk result (λ told. (told.0.items ≡ map (fault_line_of parts.now)
        (filter (λ fault. not (is_nameless parts.now fault)) faults.now))
        × (told.1 ≡ has_nameless parts.now faults.now)) }
{
    let mut lines = Vec::new(alloc);
    let mut nameless = false;
    let mut cursor = first_cursor(parts);
    let mut rest = faults;
    while let Some((fault, others)) = rest.split_first() {
        let (line, next) = line_of(parts, cursor, fault.part as usize, fault.line as usize);
        if lacks_id(line) {
            nameless = true;
        } else {
            let part = part_at(parts, fault.part as usize);
            lines.push(told_of(alloc, part, fault, line)?)?;
        }
        cursor = next;
        rest = others;
    }
    Ok((lines, nameless))
}

/// Returns the message of a warning about the line with this number and text.
fn warned(alloc: Global, kind: Warning, number: usize, line: &[u8]) -> Result<FileLine, AllocError>
    ensures { IfOk result (λ told. told ≡ warned kind number line.now) }
{
    match kind {
        Warning::Missing => {
            let program = Bytes::copy_of(alloc, program_of(line))?;
            Ok(FileLine::Missing(number, program))
        }
        _ => Ok(FileLine::Warning(number, kind)),
    }
}

fn warning_lines(
    alloc: Global,
    parts: &[Part],
    warnings: &[LineWarning],
) -> Result<Vec<Line>, AllocError>
    ensures { IfOk result (λ lines. lines.items ≡ map (warning_line parts.now) warnings.now) }
{
    let mut lines = Vec::new(alloc);
    let mut cursor = first_cursor(parts);
    let mut rest = warnings;
    while let Some((found, others)) = rest.split_first() {
        let (line, next) = line_of(parts, cursor, found.part, found.line);
        let told = warned(alloc, found.kind, found.line, line)?;
        lines.push(file_line(alloc, part_at(parts, found.part), told)?)?;
        cursor = next;
        rest = others;
    }
    Ok(lines)
}

fn any_starts(entries: &[Entry], level: Level) -> bool
    ensures { result ≡ list_any (λ e. starts_of e (Run level)) entries.now }
{
    entries.iter().any(|entry| starts(entry, Stage::Run(level)))
}

/// Reports whether any entry starts in the default level.
fn serves(table: &Table) -> bool
    ensures { result ≡ serves table.now }
{
    match table.default_level() {
        Some(level) => any_starts(table.entries(), level),
        None => false,
    }
}

/// Returns the overall result, given the faults and the warnings.
fn found_by(faults: &[PartFault], warnings: &[LineWarning], serves: bool) -> Findings
    ensures { result ≡ found_by faults.now warnings.now serves }
{
    if !faults.is_empty() {
        Findings::Faults
    } else if !warnings.is_empty() || !serves {
        Findings::Warnings
    } else {
        Findings::Nothing
    }
}

fn lint_lines(
    alloc: Global,
    parts: &[Part],
    faults: &[PartFault],
    warnings: &[LineWarning],
    table: &Table,
) -> Result<Vec<Line>, AllocError>
    ensures { IfOk result (λ lines. lines.items
        ≡ lint_lines parts.now faults.now warnings.now table.now) }
{
    let (mut lines, nameless) = fault_lines(alloc, parts, faults)?;
    add_note(&mut lines, alloc, parts, nameless, FileLine::Nameless)?;
    lines.append(&mut warning_lines(alloc, parts, warnings)?)?;
    let default = FileLine::Default(table.default_level());
    add_note(&mut lines, alloc, parts, !serves(table), default)?;
    Ok(lines)
}

fn lint_table(
    alloc: Global,
    parts: &[Part],
    faults: &[PartFault],
    more: &[LineWarning],
    table: &Table,
) -> Result<(Vec<Line>, Findings), AllocError>
    ensures { IfOk result (λ given. (given.0.items
        ≡ lint_lines parts.now faults.now (warnings_of (texts_of parts.now) ++ more.now) table.now)
        × (given.1
        ≡ found_by faults.now (warnings_of (texts_of parts.now) ++ more.now) (serves table.now))) }
{
    let mut warnings = warnings(alloc, parts)?;
    warnings.extend_from_slice(more)?;
    let found = found_by(faults, &warnings, serves(table));
    Ok((lint_lines(alloc, parts, faults, &warnings, table)?, found))
}

/// Reads an inittab(5) of several files, as `read_parts` does, and returns the messages about it: first the lines that
/// init ignores, then the warnings of `inittab_lint`, then the given warnings, and last a message if no entry starts in
/// the default level. Fails if there are more than 256 files, or more than 1,048,576 bytes in total.
pub fn lint_parts(
    alloc: Global,
    parts: &[Part],
    more: &[LineWarning],
) -> Result<(Vec<Line>, Findings), TableFault>
    ensures told { IfOk result (λ given. (given.0.items ≡ (lint_in parts.now more.now).0)
        × (given.1 ≡ (lint_in parts.now more.now).1)) }
    ensures parts { IsErrOf result TableFault.Parts ↔ AreTooMany (texts_of parts.now) }
    ensures too_long { IsErrOf result TableFault.TooLong ↔ AreTooLong (texts_of parts.now) }
{
    let (table, faults) = read_parts(alloc, parts)?;
    match lint_table(alloc, parts, &faults, more, &table) {
        Ok(given) => Ok(given),
        Err(_) => Err(TableFault::Memory),
    }
}

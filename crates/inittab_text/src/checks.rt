//! The checks that decide whether a line of the inittab is ignored, is faulty, or is an entry.

ghost use Rattle.std.specs.Prelude.{◌≡◌, ◌≤◌, Some, length};
ghost use Rattle.text_lines.specs.Lines.{has_byte};
ghost use Rattle.inittab_text.specs.Lines.{fields_at, is_ignored};
ghost use Rattle.inittab_text.specs.Checks.{is_too_long, is_missing, is_text, checked_as, checked, verdict_of};

use crate::faults::LineKind;
use crate::fields::Fields;
use crate::kept::entry_of;
use crate::tables::{ENTRY_LIMIT, Table};
use init_words::{Act, Entry, Id, MARK_LIMIT, PROCESS_LIMIT, without_plus};
use std::alloc::Allocator;
use text_lines::{is_all_blank, is_utf8, without_blanks};

/// Returns whether the line is empty or a comment.
fn is_ignored(line: &[u8]) -> bool
    ensures { result ≡ is_ignored line.now }
{
    match line {
        [] => true,
        [first, ..] => *first == b'#',
    }
}

fn has_nul(line: &[u8]) -> bool
    ensures { result ≡ has_byte 0 line.now }
{
    line.contains(&0)
}

/// Returns whether the line is UTF-8 without NUL bytes.
fn is_text(line: &[u8]) -> bool
    ensures { result ≡ is_text line.now }
{
    is_utf8(line) && !has_nul(line)
}

/// Returns whether the process field is longer than allowed.
fn is_too_long(act: Act, process: &[u8]) -> bool
    ensures { result ≡ is_too_long act process.now }
{
    act.has_process() && process.len() > PROCESS_LIMIT
}

/// Returns whether the action needs a process and the field has none.
fn is_missing(act: Act, process: &[u8]) -> bool
    ensures { result ≡ is_missing act process.now }
{
    act.needs_process() && is_all_blank(without_plus(process))
}

/// Returns the entry of a line whose id and action are valid, or the first of the remaining checks that the line
/// fails.
#[tactic(auto, unfolding(crate::specs::Checks::checked_as))]
fn checked_as<A: Allocator>(
    act: Act,
    id: Id,
    table: &Table<A>,
    line: &[u8],
    fields: &Fields,
) -> Result<Option<Entry>, LineKind>
    requires id { fields.now.id.now ≡ id }
    requires levels { length fields.now.levels.now ≤ MARK_LIMIT }
    ensures { result ≡ checked_as act table.now line.now (fields_at fields.now) }
{
    if is_too_long(act, fields.process) {
        return Err(LineKind::Length);
    }
    if is_missing(act, fields.process) {
        return Err(LineKind::Empty);
    }
    if !is_text(line) {
        return Err(LineKind::Text);
    }
    if table.get(&id).is_some() {
        return Err(LineKind::Twice);
    }
    if table.len() >= ENTRY_LIMIT {
        return Err(LineKind::Many);
    }
    Ok(Some(entry_of(id, act, fields)))
}

/// Returns the entry of a line with these fields, or the first check that the line fails.
fn checked<A: Allocator>(
    table: &Table<A>,
    line: &[u8],
    fields: &Fields,
) -> Result<Option<Entry>, LineKind>
    ensures { result ≡ checked table.now line.now (Some (fields_at fields.now)) }
{
    let Some(id) = Id::read(fields.id) else {
        return Err(LineKind::Id);
    };
    if fields.levels.len() > MARK_LIMIT {
        return Err(LineKind::Levels);
    }
    let Some(act) = Act::read(fields.action) else {
        return Err(LineKind::Action);
    };
    checked_as(act, id, table, line, fields)
}

/// Checks a line that follows the entries of the table. Returns its entry, `None` if it is ignored, or its fault.
#[tactic(auto, unfolding(crate::specs::Checks::verdict_of))]
pub(crate) fn verdict_of<A: Allocator>(
    table: &Table<A>,
    line: &[u8],
) -> Result<Option<Entry>, LineKind>
    ensures { result ≡ verdict_of table.now line.now }
{
    let text = without_blanks(line);
    if is_ignored(text) {
        return Ok(None);
    }
    let Some(fields) = Fields::of(text) else {
        return Err(LineKind::Fields);
    };
    checked(table, text, &fields)
}

//! The parts of an entry that come from the fields of a line: the marks of its runlevels, and the process.

ghost use Rattle.std.specs.Prelude.{◌≡◌, ◌<◌, ◌≤◌, false, length};
ghost use Rattle.arrayvec.specs.ArrayVec.{array_vec_len};
ghost use Rattle.init_words.specs.Levels.{mark_read};
ghost use Rattle.inittab_text.specs.Kept.{marks_of, with_mark, levels_kept, process_kept, kept_of};
ghost use Rattle.inittab_text.specs.Lines.{fields_at};
ghost use Rattle.inittab_text.specs.Checks.{is_too_long};

use crate::fields::Fields;
use arrayvec::ArrayVec;
use init_words::{Act, Entry, Id, MARK_LIMIT, Mark, PROCESS_LIMIT, names};

/// Adds the mark of a character, unless the character is not a mark or the mark is already present.
fn add_mark(marks: &mut ArrayVec<Mark, MARK_LIMIT>, code: u8)
    requires { array_vec_len marks.old < MARK_LIMIT }
    ensures { marks.new.items ≡ with_mark marks.old.items (mark_read code) }
{
    let Some(mark) = Mark::read(code) else { return };
    if !names(marks.as_slice(), mark) {
        marks.push(mark);
    }
}

/// Returns the marks for the characters of a field, without repeats.
fn marks_of(field: &[u8]) -> ArrayVec<Mark, MARK_LIMIT>
    requires { length field.now ≤ MARK_LIMIT }
    ensures { result.items ≡ marks_of field.now }
{
    let mut marks = ArrayVec::new();
    for code in field {
        add_mark(&mut marks, *code);
    }
    marks
}

/// Returns the marks for the runlevels field of an entry with this action.
fn levels_kept(act: Act, field: &[u8]) -> ArrayVec<Mark, MARK_LIMIT>
    requires { length field.now ≤ MARK_LIMIT }
    ensures { result.items ≡ levels_kept act field.now }
{
    if act.ignores_levels() {
        return ArrayVec::new();
    }
    if field.is_empty() {
        return marks_of(act.default_levels());
    }
    marks_of(field)
}

/// Returns the process of an entry with this action: its process field, or nothing if the action has no process.
fn process_kept(act: Act, field: &[u8]) -> ArrayVec<u8, PROCESS_LIMIT>
    requires { is_too_long act field.now ≡ false }
    ensures { result.items ≡ process_kept act field.now }
{
    let mut process = ArrayVec::new();
    if act.has_process() && process.try_extend_from_slice(field).is_err() {
        unreachable!()
    }
    process
}

/// Builds the entry of a line from its id, its action and its fields.
pub(crate) fn entry_of(id: Id, act: Act, fields: &Fields) -> Entry
    requires id { fields.now.id.now ≡ id }
    requires levels { length fields.now.levels.now ≤ MARK_LIMIT }
    requires process { is_too_long act fields.now.process.now ≡ false }
    ensures { result ≡ kept_of act (fields_at fields.now) }
{
    Entry {
        id,
        levels: levels_kept(act, fields.levels),
        act,
        process: process_kept(act, fields.process),
    }
}

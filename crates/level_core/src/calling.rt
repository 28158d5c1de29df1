//! Calls the ondemand entries of a letter, and the entries for a power event.
//!
//! The rows of `test_core` and `test_turns` test this module. Other proofs rely on the order in which it visits the
//! entries, which is their order in inittab(5).

ghost use Rattle.std.specs.Prelude.{◌≡◌, ◌<◌, length, slice_get, true, option_map, if◌then◌else◌, Some};
ghost use Rattle.child_table.specs.Changes.{after_call};
ghost use Rattle.level_core.specs.Words.{has_record_of, with_changed, IsInOrder, is_named, with_called, judged_in};

use child_table::Slots;
use init_words::{Entry, Stage, starts};
use inittab_text::Table;
use std::alloc::Allocator;
use trace_events::Step;

/// Returns whether the step calls the entry: the step is for a power event or letter that the entry names, and the
/// entry starts in the stage.
fn is_named(step: &Step, stage: Option<Stage>, entry: &Entry) -> bool
    ensures { result ≡ is_named step.now stage entry.now }
{
    let Some(stage) = stage else {
        return false;
    };
    match step {
        Step::Power(kind) => entry.act.is_called_by(*kind) && starts(entry, stage),
        Step::Call(letter) => {
            entry.act.is_ondemand() && entry.names_letter(*letter) && starts(entry, stage)
        }
        _ => false,
    }
}

fn call_one<A: Allocator>(slots: &mut Slots<A>, entry: &Entry, step: &Step, stage: Option<Stage>)
    requires { has_record_of entry.now.id slots.old ≡ true }
    ensures { slots.new ≡ (if is_named step.now stage entry.now
        then with_changed entry.now.id after_call slots.old else slots.old) }
{
    if is_named(step, stage, entry) {
        slots.called(entry.id);
    }
}

/// Calls the entries that the step names.
pub(crate) fn call_named<A: Allocator>(
    slots: &mut Slots<A>,
    table: &Table<A>,
    step: &Step,
    stage: Option<Stage>,
)
    requires { IsInOrder table.now slots.old }
    ensures { slots.new ≡ with_called (is_named step.now stage) table.now slots.old }
{
    for position in 0..table.len() {
        let Some(entry) = table.at(position) else {
            return;
        };
        call_one(slots, entry, step, stage);
    }
}

/// Judges the children by the table and the stage, if there is one.
pub(crate) fn judge_in<A: Allocator>(slots: &mut Slots<A>, table: &Table<A>, stage: Option<Stage>)
    ensures { slots.new ≡ judged_in stage table.now slots.old }
{
    if let Some(stage) = stage {
        slots.judge(table, stage);
    }
}

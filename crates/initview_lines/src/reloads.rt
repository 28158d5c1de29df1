//! The change to each id if init reads another inittab in the state at the end of a trace.

ghost use Rattle.std.specs.Prelude.{◌≡◌, ◌++◌, ℕ, IsTrue, List, Option, Some, false, filter, map, option_copied, option_map, IfOk, OnOk};
ghost use Rattle.initview_lines.specs.CommonWords.{Entry, Event, is_quiet, stage_of, table_of, Level, Stage, entry_of, Viewed, next_stage};
ghost use Rattle.trace_events.specs.declared.steps.Goal.{Goal};
ghost use Rattle.trace_events.specs.declared.steps.Step.TheVariants as step;
ghost use Rattle.trace_events.specs.Due.{due, first};
ghost use Rattle.trace_events.specs.Wishes.{wants_reexec};
ghost use Rattle.initview_lines.specs.Changes.{is_gone};
ghost use Rattle.initview_lines.specs.Reloads.{change_by, entry_now, idle_by, idle_change, idle_entry, is_new, kept_change, line_now, read_again, reload_in, stopped_change};

use crate::changes::{Change, same_process};
use crate::lines::Line;
use init_words::{Act, ChildNumber, Entry, Id, Stage};
use inittab_text::Table;
use std::alloc::{AllocError, Global};
use trace_view::TraceView;

/// States that if init reads another inittab in a stage, at a moment at which no start and no signal is open, its next
/// step enters the stage for which the changes are shown. The function does nothing; its contract states the law.
pub fn law_of_reloads()
    ensures { (goal : Goal) (table : List Entry) (level : Option Level) (past : List Event)
        (now : Stage) (next : Stage) (seconds : ℕ)
        → stage_of past ≡ Some now → IsTrue (is_quiet past) → wants_reexec past ≡ false
        → next_stage (read_again table level past) ≡ Some (next, seconds)
        → first (due goal (read_again table level past)) ≡ step.Enter next seconds }
{}

/// Returns the change to an entry without a child, given whether it starts in the stage and whether it is wanted.
fn idle_by(act: Act, starts: bool, wanted: bool) -> Change
    ensures { result ≡ idle_by act starts wanted }
{
    if !(starts && act.is_wanted(true, true, false)) {
        return Change::NotHere;
    }
    if act.is_limited() || wanted {
        Change::Start
    } else {
        Change::NotAgain
    }
}

fn idle_entry(view: &TraceView, entry: &Entry) -> Change
    ensures { (past : List Event) → Viewed view.now past
        → entry_of entry.now.id (table_of past) ≡ Some entry.now
        → result ≡ idle_entry past entry.now }
{
    idle_by(entry.act, view.starts(entry), view.is_wanted(entry))
}

/// Returns the change to an id without a child.
fn idle_change(view: &TraceView, id: &Id) -> Change
    ensures { (past : List Event) → Viewed view.now past → result ≡ idle_change past id.now }
{
    match view.table().get(id) {
        Some(entry) => idle_entry(view, entry),
        None => Change::NotHere,
    }
}

fn stopped_change(idle: Change) -> Change
    ensures { result ≡ stopped_change idle }
{
    match idle {
        Change::Start => Change::StopStart,
        _ => Change::Stop,
    }
}

fn kept_change(same: bool) -> Change
    ensures { result ≡ kept_change same }
{
    if same {
        Change::Keep
    } else {
        Change::NextStart
    }
}

fn change_by(child: Option<ChildNumber>, excluded: bool, idle: Change, same: bool) -> Change
    ensures { result ≡ change_by child excluded idle same }
{
    if child.is_none() {
        return idle;
    }
    if excluded {
        stopped_change(idle)
    } else {
        kept_change(same)
    }
}

fn act_in(entry: Option<&Entry>) -> Option<Act>
    ensures { result ≡ option_map (λ (e : Entry). e.act) (option_copied entry.entry) }
{
    match entry {
        Some(entry) => Some(entry.act),
        None => None,
    }
}

/// Returns the line with the change to an id and the number of its child.
fn line_now(old: &Table, view: &TraceView, id: &Id) -> Line
    ensures { (past : List Event) → Viewed view.now past → result ≡ line_now old.now past id.now }
{
    let act = act_in(view.table().get(id));
    let idle = idle_change(view, id);
    let same = same_process(old.get(id), view.table().get(id));
    let change = change_by(view.child(id), view.has_excluded(id), idle, same);
    Line::Change(*id, act, change, view.child(id))
}

fn add_new(
    lines: &mut Vec<Line>,
    old: &Table,
    view: &TraceView,
    entries: &[Entry],
) -> Result<(), AllocError>
    ensures { OnOk result ((past : List Event) → Viewed view.now past
        → lines.new.items ≡ lines.old.items ++ map (entry_now old.now past) entries.now) }
{
    let mut rest = entries;
    while let Some((entry, others)) = rest.split_first() {
        lines.push(line_now(old, view, &entry.id))?;
        rest = others;
    }
    Ok(())
}

fn add_gone(
    lines: &mut Vec<Line>,
    old: &Table,
    view: &TraceView,
    entries: &[Entry],
) -> Result<(), AllocError>
    ensures { OnOk result ((past : List Event) → Viewed view.now past → lines.new.items
        ≡ lines.old.items
        ++ map (entry_now old.now past) (filter (is_gone (table_of past)) entries.now)) }
{
    let mut rest = entries;
    while let Some((entry, others)) = rest.split_first() {
        if view.table().get(&entry.id).is_none() {
            lines.push(line_now(old, view, &entry.id))?;
        }
        rest = others;
    }
    Ok(())
}

fn add_left(
    lines: &mut Vec<Line>,
    old: &Table,
    view: &TraceView,
    ids: &[Id],
) -> Result<(), AllocError>
    ensures { OnOk result ((past : List Event) → Viewed view.now past → lines.new.items
        ≡ lines.old.items ++ map (line_now old.now past) (filter (is_new old.now) ids.now)) }
{
    let mut rest = ids;
    while let Some((id, others)) = rest.split_first() {
        if old.get(id).is_none() {
            lines.push(line_now(old, view, id))?;
        }
        rest = others;
    }
    Ok(())
}

/// Returns the change to each id, given the view of a trace after which init read another inittab in place of the old
/// one: a line for the stage in force, for each entry of the new inittab in order, for each entry of the old one that
/// the new one lacks, and for each child that has an entry in neither. A line has the number of the id's child, if any.
pub fn reload_lines(alloc: Global, old: &Table, view: &TraceView) -> Result<Vec<Line>, AllocError>
    ensures { IfOk result (λ lines. (past : List Event) → Viewed view.now past
        → lines.items ≡ reload_in old.now past) }
{
    let mut lines = Vec::new(alloc);
    lines.push(Line::Stage(view.stage()))?;
    add_new(&mut lines, old, view, view.table().entries())?;
    add_gone(&mut lines, old, view, old.entries())?;
    let Ok(left) = view.gone(alloc) else {
        return Err(AllocError);
    };
    add_left(&mut lines, old, view, left.as_slice())?;
    Ok(lines)
}

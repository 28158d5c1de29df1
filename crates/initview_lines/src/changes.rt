//! The changes to the entries in a level when another inittab replaces the one in force.

ghost use Rattle.std.specs.Prelude.{◌≡◌, ◌++◌, Some, filter, map, option_copied, IfOk, OnOk};
ghost use Rattle.initview_lines.specs.CommonWords.{may_live, is_started, stages_to};
ghost use Rattle.std.specs.List.{list_any};
ghost use Rattle.initview_lines.specs.Changes.{act_there, change_in, change_line, changes_in, entry_change, is_gone, is_there, same_process, starts_there};

use crate::lines::Line;
use init_words::{Act, Entry, Id, Level, Stage, lives, starts};
use inittab_text::Table;
use std::alloc::{AllocError, Global};

/// The change to an id.
#[derive(Clone, Copy, PartialEq, Eq)]
pub enum Change {
    /// Its child keeps running.
    Keep,
    /// Its child keeps running, but the next start uses another process field.
    NextStart,
    /// Its child is stopped.
    Stop,
    /// Its child is stopped, and another one is started.
    StopStart,
    /// Init starts the entry.
    Start,
    /// The entry was already started in the level, and init does not start it again.
    NotAgain,
    /// Init does not start the entry in the level without a request, before or after the change.
    NotHere,
}

/// Reports whether init starts the entry in the stage without any request.
pub(crate) fn is_started(stage: Stage, entry: &Entry) -> bool
    ensures { result ≡ is_started stage entry.now }
{
    starts(entry, stage) && entry.act.is_wanted(true, true, false)
}

fn starts_there(level: Level, entry: Option<&Entry>) -> bool
    ensures { result ≡ starts_there level (option_copied entry.entry) }
{
    match entry {
        Some(entry) => is_started(Stage::Run(level), entry),
        None => false,
    }
}

/// Reports whether init starts the entry on the way to the level without any request.
fn is_on_way(level: Level, entry: &Entry) -> bool
    ensures { result ≡ list_any (λ stage. is_started stage entry.now) (stages_to level) }
{
    is_started(Stage::Sysinit, entry)
        || level != Level::S && is_started(Stage::Boot, entry)
        || is_started(Stage::Run(level), entry)
}

/// Reports whether the entry has a child in the level.
fn is_there(level: Level, entry: Option<&Entry>) -> bool
    ensures { result ≡ is_there level (option_copied entry.entry) }
{
    match entry {
        Some(entry) => is_on_way(level, entry) && lives(entry, Stage::Run(level)),
        None => false,
    }
}

fn act_there(entry: Option<&Entry>) -> Option<Act>
    ensures { result ≡ act_there (option_copied entry.entry) }
{
    match entry {
        Some(entry) => Some(entry.act),
        None => None,
    }
}

/// Reports whether a child that was born with the action may live in the stage.
fn may_live(entry: Option<&Entry>, act: Option<Act>, stage: Stage) -> bool
    ensures { result ≡ may_live (option_copied entry.entry) act (Some stage) }
{
    match (entry, act) {
        (Some(entry), Some(act)) => entry.act == act && lives(entry, stage),
        _ => false,
    }
}

pub(crate) fn same_process(old: Option<&Entry>, new: Option<&Entry>) -> bool
    ensures { result ≡ same_process (option_copied old.entry) (option_copied new.entry) }
{
    match (old, new) {
        (Some(old), Some(new)) => old.process.as_slice() == new.process.as_slice(),
        _ => false,
    }
}

/// Returns the change to an id in a level, given its old and new entries.
fn change_in(level: Level, old: Option<&Entry>, new: Option<&Entry>) -> Change
    ensures { result ≡ change_in level (option_copied old.entry) (option_copied new.entry) }
{
    let starts = starts_there(level, new);
    if !is_there(level, old) {
        return if starts {
            Change::Start
        } else {
            Change::NotHere
        };
    }
    if !may_live(new, act_there(old), Stage::Run(level)) {
        return if starts {
            Change::StopStart
        } else {
            Change::Stop
        };
    }
    if same_process(old, new) {
        Change::Keep
    } else {
        Change::NextStart
    }
}

/// Returns the line with the change to an id in a level.
fn change_line(level: Level, old: &Table, new: &Table, id: &Id) -> Line
    ensures { result ≡ change_line level old.now new.now id.now }
{
    let after = new.get(id);
    Line::Change(
        *id,
        act_there(after),
        change_in(level, old.get(id), after),
        None,
    )
}

fn changes(alloc: Global, level: Level, old: &Table, new: &Table) -> Result<Vec<Line>, AllocError>
    ensures { IfOk result (λ lines. lines.items ≡ map (entry_change level old.now new.now)
        (new.now ++ filter (is_gone new.now) old.now)) }
{
    let gone = old
        .entries()
        .iter()
        .filter(|entry| new.get(&entry.id).is_none());
    new.entries()
        .iter()
        .chain(gone)
        .map(|entry| change_line(level, old, new, &entry.id))
        .collect(alloc)
}

/// Returns the changes in a level when init reads the new table in place of the old one: a line for the level, one for
/// each entry of the new table, and one for each entry that the new table lacks.
pub fn change_lines(
    alloc: Global,
    level: Level,
    old: &Table,
    new: &Table,
) -> Result<Vec<Line>, AllocError>
    ensures { IfOk result (λ lines. lines.items ≡ changes_in level old.now new.now) }
{
    let mut lines = Vec::new(alloc);
    lines.push(Line::Stage(Some(Stage::Run(level))))?;
    lines.append(&mut changes(alloc, level, old, new)?)?;
    Ok(lines)
}

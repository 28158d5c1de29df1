//! The entries that init starts on its way to a level without any request, and the critical path.

ghost use Rattle.std.specs.Prelude.{◌≡◌, ◌++◌, None, filter, map, IfOk, OnOk};
ghost use Rattle.initview_lines.specs.CommonWords.{is_on_path, path_along, started_in, stages_to};
ghost use Rattle.initview_lines.specs.Plans.{last_of, path_in, path_lines, plan_in, stages_lines, start_line, waited_in, waiting};

use crate::changes::is_started;
use crate::lines::Line;
use init_words::{Act, Entry, Id, Level, Stage, waited};
use inittab_text::Table;
use std::alloc::{AllocError, Global};

/// An entry whose end init waits for.
#[derive(Clone, Copy)]
pub struct Waited {
    pub id: Id,
    pub act: Act,
}

/// Returns the stages on the way to a level. There is no boot stage on the way to S.
fn stages_to(alloc: Global, level: Level) -> Result<Vec<Stage>, AllocError>
    ensures { IfOk result (λ stages. stages.items ≡ stages_to level) }
{
    if level == Level::S {
        Vec::from_slice(alloc, &[Stage::Sysinit, Stage::Run(level)])
    } else {
        Vec::from_slice(alloc, &[Stage::Sysinit, Stage::Boot, Stage::Run(level)])
    }
}

fn starts(alloc: Global, stage: Stage, entries: &[Entry]) -> Result<Vec<Line>, AllocError>
    ensures { IfOk result (λ lines. lines.items ≡ map start_line (started_in entries.now stage)) }
{
    entries
        .iter()
        .filter(|entry| is_started(stage, *entry))
        .map(|entry| Line::Start(entry.id, entry.act, waited(entry)))
        .collect(alloc)
}

/// Adds stages, each followed by the entries that init starts in it.
fn add_stages(
    lines: &mut Vec<Line>,
    alloc: Global,
    stages: &[Stage],
    entries: &[Entry],
) -> Result<(), AllocError>
    ensures { OnOk result (lines.new.items
        ≡ lines.old.items ++ stages_lines entries.now stages.now) }
{
    let mut rest = stages;
    while let Some((stage, others)) = rest.split_first() {
        lines.push(Line::Stage(Some(*stage)))?;
        lines.append(&mut starts(alloc, *stage, entries)?)?;
        rest = others;
    }
    Ok(())
}

/// Reports whether the entry is on the critical path of a stage.
fn is_on_path(stage: Stage, entry: &Entry) -> bool
    ensures { result ≡ is_on_path stage entry.now }
{
    is_started(stage, entry) && waited(entry)
}

fn waited_at(alloc: Global, stage: Stage, entries: &[Entry]) -> Result<Vec<Waited>, AllocError>
    ensures { IfOk result (λ path. path.items
        ≡ map waiting (filter (is_on_path stage) entries.now)) }
{
    entries
        .iter()
        .filter(|entry| is_on_path(stage, *entry))
        .map(|entry| Waited {
            id: entry.id,
            act: entry.act,
        })
        .collect(alloc)
}

/// Returns the critical path through several stages.
fn path_along(alloc: Global, stages: &[Stage], entries: &[Entry]) -> Result<Vec<Waited>, AllocError>
    ensures { IfOk result (λ path. path.items ≡ map waiting (path_along entries.now stages.now)) }
{
    let mut path = Vec::new(alloc);
    let mut rest = stages;
    while let Some((stage, others)) = rest.split_first() {
        path.append(&mut waited_at(alloc, *stage, entries)?)?;
        rest = others;
    }
    Ok(path)
}

/// Returns the critical path to a level.
pub(crate) fn waited_in(
    alloc: Global,
    level: Level,
    entries: &[Entry],
) -> Result<Vec<Waited>, AllocError>
    ensures { IfOk result (λ path. path.items ≡ waited_in level entries.now) }
{
    path_along(alloc, &stages_to(alloc, level)?, entries)
}

/// Adds the entries of a path, and returns the last one.
fn add_path(lines: &mut Vec<Line>, path: &[Waited]) -> Result<Option<Id>, AllocError>
    ensures { IfOk result (λ last. (last ≡ last_of None path.now)
        × (lines.new.items ≡ lines.old.items ++ path_lines None path.now)) }
{
    let mut last = None;
    let mut rest = path;
    while let Some((one, others)) = rest.split_first() {
        lines.push(Line::OnPath(one.id, one.act, last))?;
        last = Some(one.id);
        rest = others;
    }
    Ok(last)
}

fn add_critical_path(lines: &mut Vec<Line>, level: Level, path: &[Waited]) -> Result<(), AllocError>
    ensures { OnOk result (lines.new.items ≡ lines.old.items ++ path_in level path.now) }
{
    lines.push(Line::CriticalPath)?;
    let last = add_path(lines, path)?;
    lines.push(Line::Reached(level, last))?;
    Ok(())
}

/// Returns the entries that init starts on its way to a level without any request: each stage, followed by its entries
/// in the order of their starts, and whether init waits for each to end before it continues. Then comes the critical
/// path: the entries that must end before the level is reached, each with the one that it waits for.
pub fn plan_lines(alloc: Global, level: Level, table: &Table) -> Result<Vec<Line>, AllocError>
    ensures { IfOk result (λ lines. lines.items ≡ plan_in level table.now) }
{
    let mut lines = Vec::new(alloc);
    add_stages(
        &mut lines,
        alloc,
        &stages_to(alloc, level)?,
        table.entries(),
    )?;
    add_critical_path(
        &mut lines,
        level,
        &waited_in(alloc, level, table.entries())?,
    )?;
    Ok(lines)
}

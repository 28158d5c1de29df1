//! The times that the entries of the critical path to a level took in a trace.

ghost use Rattle.std.specs.Prelude.{◌≡◌, ◌∷◌, ◌++◌, [], map, IfOk, OnOk};
ghost use Rattle.initview_lines.specs.Times.{end_took, first_of, longest_of, seconds_of, seconds_to, sum_of, time_line, timed_of, times_by, times_in, took_of};

use crate::lines::Line;
use crate::plans::{Waited, waited_in};
use init_words::Level;
use inittab_text::Table;
use initview_timeline::{Life, TimelineMark, lives_of, marks_for};
use std::alloc::{AllocError, Global};
use trace_view::Ending;

/// The time that an entry of the critical path took, from its first birth to its end, in seconds.
#[derive(Clone, Copy)]
pub enum TimeTaken {
    NotStarted,
    RunsStill,
    Seconds(u64),
    /// The time in seconds, if no entry of the path took longer.
    Longest(u64),
}

/// An entry that init waits for, and the life of its first child, if it had one.
#[derive(Clone, Copy)]
pub struct Timed {
    pub entry: Waited,
    pub life: Option<Life>,
}

fn first_of(lives: &[Life]) -> Option<Life>
    ensures { result ≡ first_of lives.now }
{
    match lives {
        [] => None,
        [life, ..] => Some(*life),
    }
}

fn add_timed(
    timed: &mut Vec<Timed>,
    alloc: Global,
    marks: &[TimelineMark],
    entry: Waited,
) -> Result<(), AllocError>
    ensures { OnOk result (timed.new.items ≡ timed.old.items ++ timed_of marks.now entry ∷ []) }
{
    let own = marks_for(alloc, &Some(entry.id), marks)?;
    let lives = lives_of(alloc, own.as_slice())?;
    timed.push(Timed {
        entry,
        life: first_of(lives.as_slice()),
    })?;
    Ok(())
}

fn add_path(
    timed: &mut Vec<Timed>,
    alloc: Global,
    marks: &[TimelineMark],
    path: &[Waited],
) -> Result<(), AllocError>
    ensures { OnOk result (timed.new.items
        ≡ timed.old.items ++ map (timed_of marks.now) path.now) }
{
    let mut rest = path;
    while let Some((entry, others)) = rest.split_first() {
        add_timed(timed, alloc, marks, *entry)?;
        rest = others;
    }
    Ok(())
}

fn timed_path(
    alloc: Global,
    marks: &[TimelineMark],
    path: &[Waited],
) -> Result<Vec<Timed>, AllocError>
    ensures { IfOk result (λ timed. timed.items ≡ map (timed_of marks.now) path.now) }
{
    let mut timed = Vec::new(alloc);
    add_path(&mut timed, alloc, marks, path)?;
    Ok(timed)
}

fn seconds_to(from: u64, end: Option<Ending>) -> u64
    ensures { result ≡ seconds_to from end }
{
    match end {
        Some(ending) => ending.time.saturating_sub(from),
        None => 0,
    }
}

/// Returns the seconds of a life that ended, or 0.
fn seconds_of(life: Option<Life>) -> u64
    ensures { result ≡ seconds_of life }
{
    match life {
        Some(life) => seconds_to(life.from, life.end),
        None => 0,
    }
}

fn sum_of(timed: &[Timed]) -> u64
    ensures { result ≡ sum_of timed.now }
{
    timed
        .iter()
        .fold(0u64, |sum, one| sum.saturating_add(seconds_of(one.life)))
}

fn longest_of(timed: &[Timed]) -> u64
    ensures { result ≡ longest_of timed.now }
{
    timed
        .iter()
        .fold(0u64, |longest, one| longest.max(seconds_of(one.life)))
}

fn end_took(longest: u64, from: u64, end: Option<Ending>) -> TimeTaken
    ensures { result ≡ end_took longest from end }
{
    let Some(ending) = end else {
        return TimeTaken::RunsStill;
    };
    let seconds = ending.time.saturating_sub(from);
    if 0 < seconds && seconds == longest {
        TimeTaken::Longest(seconds)
    } else {
        TimeTaken::Seconds(seconds)
    }
}

fn took_of(longest: u64, life: Option<Life>) -> TimeTaken
    ensures { result ≡ took_of longest life }
{
    match life {
        Some(life) => end_took(longest, life.from, life.end),
        None => TimeTaken::NotStarted,
    }
}

fn time_lines(alloc: Global, longest: u64, timed: &[Timed]) -> Result<Vec<Line>, AllocError>
    ensures { IfOk result (λ lines. lines.items ≡ map (time_line longest) timed.now) }
{
    timed
        .iter()
        .map(|one| Line::TimeTaken(one.entry.id, one.entry.act, took_of(longest, one.life)))
        .collect(alloc)
}

fn add_times(
    lines: &mut Vec<Line>,
    alloc: Global,
    level: Level,
    timed: &[Timed],
) -> Result<(), AllocError>
    ensures { OnOk result (lines.new.items ≡ lines.old.items ++ times_by level timed.now) }
{
    lines.push(Line::PathTimes)?;
    lines.append(&mut time_lines(alloc, longest_of(timed), timed)?)?;
    lines.push(Line::Whole(level, sum_of(timed)))?;
    Ok(())
}

/// Adds the time that each entry of the critical path to a level took, given the marks of a trace, oldest first: the
/// seconds from its first birth to its end. The longest times are marked, and the last line has the sum of all.
pub fn add_path_times(
    lines: &mut Vec<Line>,
    alloc: Global,
    level: Level,
    table: &Table,
    marks: &[TimelineMark],
) -> Result<(), AllocError>
    ensures { OnOk result (lines.new.items
        ≡ lines.old.items ++ times_in level table.now marks.now) }
{
    let path = waited_in(alloc, level, table.entries())?;
    let timed = timed_path(alloc, marks, &path)?;
    add_times(lines, alloc, level, &timed)
}

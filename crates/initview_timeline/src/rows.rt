//! The rows of a timeline.

ghost use Rattle.std.specs.Prelude.{◌≡◌, ◌++◌, map, true, List, ℕ, IfOk, OnOk};
ghost use Rattle.initview_timeline.specs.Rows.{AreShown, IsCommon, among, due_bars, had_marks, ids_of, is_held, is_ill, is_loud, is_near, is_up, near_marks, of_stage, row_of, rows_of, scene_of, shown_to, stage_pieces, starts_now, state_after, state_from, state_of, table_ids, timeline_of, waits};

use crate::frames::Frame;
use crate::lives::{add_ids, add_new, is_for, lives_of, marks_for};
use crate::marks::{Shown, TimelineMark};
use crate::pieces::{Drawn, Pieces, next_begin};
use crate::sets::{Ids, begun_ids, marked_ids, no_ids, set_of, starting_ids, waited_ids};
use init_words::{Entry, Id, SignalKind, Stage, Status, starts};
use respawn_limit::HOLD;
use std::alloc::{AllocError, Global};
use std::marker::Model;

/// The maximum number of rows for which all marks are searched for each row.
const FEW: usize = 8;

/// The input of a timeline: the table in force; the marks, oldest first; the stage in force, whether it is settled, and
/// whether no entry is owed in it; and the first and last reading of the clock, in seconds.
#[derive(Clone, Copy)]
pub struct Seen<'a> {
    pub entries: &'a [Entry],
    pub marks: &'a [TimelineMark],
    pub stage: Option<Stage>,
    pub settled: bool,
    pub complete: bool,
    pub start: Option<u64>,
    pub end: u64,
}

/// The state of an id at the end of the trace. An end without a status means that the start failed.
#[derive(Clone, Copy)]
pub enum State {
    Due,
    Runs,
    Stopping,
    Stopped,
    Ended(Option<Status>),
    Held,
}

/// The row of an id: its state at the end, and its pieces. Each sign marks a fault.
#[derive(Drop)]
pub struct Row {
    pub id: Id,
    pub state: State,
    pub pieces: Pieces,
}

/// A timeline from the first clock reading to the last, in seconds. It has the pieces of time in which each stage was
/// in force, one row per id, the stage in force at the end, and whether the level was then settled.
#[derive(Drop)]
pub struct Timeline {
    pub start: u64,
    pub end: u64,
    pub stage: Option<Stage>,
    pub settled: bool,
    pub stages: Pieces,
    pub rows: Vec<Row>,
}

impl Model for Timeline {
    ghost use Rattle.initview_timeline.specs.Rows.{TimelineParts};

    ghost Value = { TimelineParts };

    ghost view = { λ t. record {
      start = t.start;
      end = t.end;
      stage = t.stage;
      settled = t.settled;
      stages = t.stages;
      rows = t.rows.items;
    } };
}

impl Timeline {
    /// Returns the frame of a drawing of the timeline whose last position is `last`.
    pub fn frame(&self, last: u64) -> Frame {
        Frame {
            start: self.start,
            end: self.end,
            last,
        }
    }
}

/// Reports whether init starts the entry in the stage without any request.
pub(crate) fn starts_now(entry: &Entry, stage: Option<Stage>) -> bool
    ensures { result ≡ starts_now entry.now stage }
{
    match stage {
        Some(stage) => starts(entry, stage) && entry.act.is_wanted(true, true, false),
        None => false,
    }
}

fn add_table_ids(
    ids: &mut Ids,
    marked: &Ids,
    seen: &Seen,
    entries: &[Entry],
) -> Result<(), AllocError>
    requires { (id : List ℕ)
        → among id marked.now.keys ≡ had_marks id (scene_of seen.now).marks }
    ensures { OnOk result (ids.new.keys
        ≡ table_ids ids.old.keys (scene_of seen.now) entries.now) }
{
    let mut rest = entries;
    while let Some((entry, others)) = rest.split_first() {
        if starts_now(entry, seen.stage) || marked.contains(&entry.id) {
            add_new(ids, entry.id)?;
        }
        rest = others;
    }
    Ok(())
}

/// Returns the ids of the rows: first, in table order, the ids of the table that start in the stage in force or have a
/// mark; then all other ids that have a mark.
fn ids_of(alloc: Global, seen: &Seen) -> Result<Ids, AllocError>
    ensures { IfOk result (λ ids. ids.keys ≡ ids_of (scene_of seen.now)) }
{
    let marked = marked_ids(alloc, seen.marks)?;
    let mut ids = no_ids(alloc);
    add_table_ids(&mut ids, &marked, seen, seen.entries)?;
    add_ids(&mut ids, seen.marks)?;
    Ok(ids)
}

/// Returns the state of an id after one of its marks.
fn state_after(state: State, what: Shown) -> State
    ensures { result ≡ state_after state what }
{
    match (what, state) {
        (Shown::Born(_, _), _) => State::Runs,
        (Shown::NotBorn(_), _) => State::Ended(None),
        (Shown::Sent(_, SignalKind::Term), State::Runs) => State::Stopping,
        (Shown::Ended(_, _, _), State::Stopping) => State::Stopped,
        (Shown::Ended(_, _, status), _) => State::Ended(Some(status)),
        _ => state,
    }
}

fn state_from(marks: &[TimelineMark]) -> State
    ensures { result ≡ state_from marks.now }
{
    marks
        .iter()
        .fold(State::Due, |state, mark| state_after(state, mark.what))
}

/// Reports whether the id is held at this time: a hold began less than five minutes before, and no event has ended it.
fn is_held(end: u64, id: &Option<Id>, marks: &[TimelineMark]) -> bool
    ensures { result ≡ is_held end id.now marks.now }
{
    let mut rest = marks;
    while let Some((mark, later)) = rest.split_first() {
        let over = mark.time.saturating_add(HOLD);
        if let Shown::Held(_) = mark.what {
            if is_for(id, mark.what) && end < over.min(next_begin(u64::MAX, id, later)) {
                return true;
            }
        }
        rest = later;
    }
    false
}

/// Reports whether the id has a living child, even if it was sent SIGTERM.
fn is_up(state: State) -> bool
    ensures { result ≡ is_up state }
{
    matches!(state, State::Runs | State::Stopping)
}

/// Returns the marks from the last stage on.
fn of_stage(marks: &[TimelineMark]) -> &[TimelineMark]
    ensures { result.now ≡ of_stage marks.now marks.now }
{
    let mut found = marks;
    let mut rest = marks;
    while let Some((mark, others)) = rest.split_first() {
        if let Shown::Entered(_) = mark.what {
            found = rest;
        }
        rest = others;
    }
    found
}

/// Data shared by all rows: the ids that init waits for, those that start in the stage in force, those that were
/// started in this stage, and the marks since the stage began.
#[derive(Drop)]
struct Common<'a> {
    waited: Ids,
    starting: Ids,
    begun: Ids,
    stage_marks: &'a [TimelineMark],
}

fn common_of<'a>(alloc: Global, seen: &Seen<'a>) -> Result<Common<'a>, AllocError>
    ensures { IfOk result (λ common. IsCommon common (scene_of seen.now)) }
{
    let stage_marks = of_stage(seen.marks);
    Ok(Common {
        waited: waited_ids(alloc, seen.entries)?,
        starting: starting_ids(alloc, seen.stage, seen.entries)?,
        begun: begun_ids(alloc, stage_marks)?,
        stage_marks,
    })
}

/// Reports whether an id is due: some entry is owed in the stage in force, and the id starts in it but was not started.
fn waits(seen: &Seen, common: &Common, id: Id) -> bool
    requires { IsCommon common.now (scene_of seen.now) }
    ensures { result ≡ waits (scene_of seen.now) id }
{
    !seen.complete && common.starting.contains(&id) && !common.begun.contains(&id)
}

/// Returns the state of an id at the end, given all marks that affect it and the marks of the id.
#[tactic(auto, using(crate::proofs::Parted::held_same))]
fn state_of(
    seen: &Seen,
    common: &Common,
    id: Id,
    marks: &[TimelineMark],
    id_marks: &[TimelineMark],
) -> State
    requires common { IsCommon common.now (scene_of seen.now) }
    requires shown { shown_to id marks.now ≡ shown_to id (scene_of seen.now).marks }
    ensures { result ≡ state_of (scene_of seen.now) id id_marks.now }
{
    let state = state_from(id_marks);
    if is_held(seen.end, &Some(id), marks) {
        State::Held
    } else if waits(seen, common, id) && !is_up(state) {
        State::Due
    } else {
        state
    }
}

/// Adds the bar for an id that is due, from the time at which init entered the stage in force.
fn add_due(
    pieces: &mut Pieces,
    seen: &Seen,
    common: &Common,
    state: State,
) -> Result<(), AllocError>
    requires { IsCommon common.now (scene_of seen.now) }
    ensures bars { OnOk result (pieces.new.bars
        ≡ pieces.old.bars ++ due_bars state (scene_of seen.now)) }
    ensures signs { OnOk result (pieces.new.signs ≡ pieces.old.signs) }
{
    if let State::Due = state {
        if let [mark, ..] = common.stage_marks {
            return pieces.bar(Drawn::Due, mark.time, seen.end);
        }
    }
    Ok(())
}

/// Returns the row of an id, given the marks that affect it.
fn row_of(
    alloc: Global,
    seen: &Seen,
    common: &Common,
    id: Id,
    marks: &[TimelineMark],
) -> Result<Row, AllocError>
    requires common { IsCommon common.now (scene_of seen.now) }
    requires shown { shown_to id marks.now ≡ shown_to id (scene_of seen.now).marks }
    ensures { IfOk result (λ row. row ≡ row_of (scene_of seen.now) id) }
{
    let id_marks = marks_for(alloc, &Some(id), marks)?;
    let lives = lives_of(alloc, id_marks.as_slice())?;
    let state = state_of(seen, common, id, marks, id_marks.as_slice());
    let mut pieces = Pieces::new(alloc);
    add_due(&mut pieces, seen, common, state)?;
    pieces.add_lives(seen.end, common.waited.contains(&id), lives.as_slice())?;
    pieces.add_marks(seen.end, &Some(id), marks)?;
    Ok(Row { id, state, pieces })
}

/// Reports whether the event affects one of these ids, or all ids.
fn is_near(ids: &Ids, what: Shown) -> bool
    ensures { result ≡ is_near ids.now.keys what }
{
    match what {
        Shown::Entered(_) | Shown::Read => true,
        Shown::Settled(_) => false,
        Shown::NotBorn(id) | Shown::Held(id) => ids.contains(&id),
        Shown::Born(id, _) | Shown::Sent(id, _) => ids.contains(&id),
        Shown::Ended(id, _, _) => ids.contains(&id),
    }
}

fn near_marks(
    alloc: Global,
    ids: &Ids,
    marks: &[TimelineMark],
) -> Result<Vec<TimelineMark>, AllocError>
    ensures { IfOk result (λ near. near.items ≡ near_marks ids.now.keys marks.now) }
{
    marks
        .iter()
        .copied()
        .filter(|mark| is_near(ids, mark.what))
        .collect(alloc)
}

/// Returns the marks that affect one of these ids.
fn marks_near(
    alloc: Global,
    ids: &[Id],
    marks: &[TimelineMark],
) -> Result<Vec<TimelineMark>, AllocError>
    ensures { IfOk result (λ near. (id : List ℕ) → among id ids.now ≡ true
        → shown_to id near.items ≡ shown_to id marks.now) }
{
    let set = set_of(alloc, ids)?;
    let near = near_marks(alloc, &set, marks)?;
    Ok(near)
}

/// Adds the rows of ids, given the marks that affect them.
fn add_each(
    rows: &mut Vec<Row>,
    alloc: Global,
    seen: &Seen,
    common: &Common,
    ids: &[Id],
    marks: &[TimelineMark],
) -> Result<(), AllocError>
    requires common { IsCommon common.now (scene_of seen.now) }
    requires shown { AreShown ids.now marks.now (scene_of seen.now) }
    ensures { OnOk result (rows.new.items
        ≡ rows.old.items ++ map (row_of (scene_of seen.now)) ids.now) }
{
    let mut rest = ids;
    while let Some((id, others)) = rest.split_first() {
        rows.push(row_of(alloc, seen, common, *id, marks)?)?;
        rest = others;
    }
    Ok(())
}

/// Adds the rows of ids, given the marks that affect them. It splits the ids into halves, each with the marks that
/// affect it, so that no row has to search the marks of all other rows.
fn add_rows(
    rows: &mut Vec<Row>,
    alloc: Global,
    seen: &Seen,
    common: &Common,
    ids: &[Id],
    marks: &[TimelineMark],
) -> Result<(), AllocError>
    requires common { IsCommon common.now (scene_of seen.now) }
    requires shown { AreShown ids.now marks.now (scene_of seen.now) }
    ensures { OnOk result (rows.new.items
        ≡ rows.old.items ++ map (row_of (scene_of seen.now)) ids.now) }
{
    let near = marks_near(alloc, ids, marks)?;
    if ids.len() < FEW {
        return add_each(rows, alloc, seen, common, ids, near.as_slice());
    }
    let (front, back) = ids.split_at(ids.len() / 2);
    add_rows(rows, alloc, seen, common, front, near.as_slice())?;
    add_rows(rows, alloc, seen, common, back, near.as_slice())
}

fn rows_of(alloc: Global, seen: &Seen) -> Result<Vec<Row>, AllocError>
    ensures { IfOk result (λ rows. rows.items ≡ rows_of (scene_of seen.now)) }
{
    let common = common_of(alloc, seen)?;
    let ids = ids_of(alloc, seen)?;
    let mut rows = Vec::new(alloc);
    add_rows(&mut rows, alloc, seen, &common, ids.as_slice(), seen.marks)?;
    Ok(rows)
}

/// Returns the stages as pieces of time.
fn stage_pieces(alloc: Global, seen: &Seen) -> Result<Pieces, AllocError>
    ensures { IfOk result (λ pieces. pieces ≡ stage_pieces (scene_of seen.now)) }
{
    let mut pieces = Pieces::new(alloc);
    pieces.add_marks(seen.end, &None, seen.marks)?;
    Ok(pieces)
}

/// Reports whether this state needs the attention of an operator.
pub fn is_loud(state: State) -> bool
    ensures { result ≡ is_loud state }
{
    match state {
        State::Held => true,
        State::Ended(status) => !matches!(status, Some(Status::Exit(0))),
        _ => false,
    }
}

/// Reports whether an id has a fault mark, or its state at the end needs attention.
pub fn is_ill(row: &Row) -> bool
    ensures { result ≡ is_ill row.now }
{
    !row.pieces.signs.is_empty() || is_loud(row.state)
}

/// Returns the timeline. If the trace has no reading of the clock, the timeline is a single moment.
pub fn timeline_of(alloc: Global, seen: &Seen) -> Result<Timeline, AllocError>
    ensures { IfOk result (λ timeline. timeline ≡ timeline_of (scene_of seen.now)) }
{
    Ok(Timeline {
        start: seen.start.unwrap_or(seen.end),
        end: seen.end,
        stage: seen.stage,
        settled: seen.settled,
        stages: stage_pieces(alloc, seen)?,
        rows: rows_of(alloc, seen)?,
    })
}

//! The states of init and its entries.

ghost use Rattle.std.specs.Prelude.{◌≡◌, ◌++◌, ◌∷◌, [], List, map, IfOk, OnOk};
ghost use Rattle.initview_lines.specs.CommonWords.{Event, Viewed};
ghost use Rattle.initview_lines.specs.Rows.{ended_at, entry_row, head_of, held_at, id_row, row_at, row_by, runs_at, status_in, stopping_at};

use crate::lines::{Head, IdRow, Line, RowFormat, Stopping};
use init_words::{Entry, Id};
use respawn_limit::HOLD;
use std::alloc::{AllocError, Global};
use trace_view::{Births, Ending, Row, TraceView, Why};

/// Returns the states of init, of each entry in table order, and of each id that has a child but no entry any more.
pub fn status_lines(
    alloc: Global,
    view: &TraceView,
    shape: RowFormat,
) -> Result<Vec<Line>, AllocError>
    ensures { IfOk result (λ lines. (past : List Event) → Viewed view.now past
        → lines.items ≡ status_in shape past) }
{
    let mut lines = Vec::new(alloc);
    lines.push(Line::Head(shape, read_head(view)))?;
    add_entries(&mut lines, view, view.table().entries(), shape)?;
    let Ok(gone) = view.gone(alloc) else {
        return Err(AllocError);
    };
    add_ids(&mut lines, view, gone.as_slice(), shape)?;
    Ok(lines)
}

/// Returns the state of one id.
pub fn row_line(
    alloc: Global,
    view: &TraceView,
    id: &Id,
    shape: RowFormat,
) -> Result<Vec<Line>, AllocError>
    ensures { IfOk result (λ lines. (past : List Event) → Viewed view.now past
        → lines.items ≡ row_at shape past id.now ∷ []) }
{
    let mut lines = Vec::new(alloc);
    lines.push(row_at(view, id, shape))?;
    Ok(lines)
}

pub(crate) fn read_head(view: &TraceView) -> Head
    ensures { (past : List Event) → Viewed view.now past → result ≡ head_of past }
{
    Head {
        stage: view.stage(),
        settled: view.is_settled(),
        complete: view.is_complete(),
        time: view.time(),
        grace: u64::from(view.grace()),
        goal: view.asked_level(),
        wish: view.wish(),
    }
}

fn add_entries(
    lines: &mut Vec<Line>,
    view: &TraceView,
    entries: &[Entry],
    shape: RowFormat,
) -> Result<(), AllocError>
    ensures { OnOk result ((past : List Event) → Viewed view.now past
        → lines.new.items ≡ lines.old.items ++ map (entry_row shape past) entries.now) }
{
    let mut rest = entries;
    while let Some((entry, others)) = rest.split_first() {
        lines.push(row_at(view, &entry.id, shape))?;
        rest = others;
    }
    Ok(())
}

fn add_ids(
    lines: &mut Vec<Line>,
    view: &TraceView,
    ids: &[Id],
    shape: RowFormat,
) -> Result<(), AllocError>
    ensures { OnOk result ((past : List Event) → Viewed view.now past
        → lines.new.items ≡ lines.old.items ++ map (row_at shape past) ids.now) }
{
    let mut rest = ids;
    while let Some((id, others)) = rest.split_first() {
        lines.push(row_at(view, id, shape))?;
        rest = others;
    }
    Ok(())
}

/// Returns the seconds since a child was born.
fn runs_at(now: u64, births: Option<Births>) -> Option<u64>
    ensures { result ≡ runs_at now births }
{
    match births {
        Some(births) => Some(now.saturating_sub(births.latest)),
        None => None,
    }
}

/// Returns the progress of stopping a child, given the time at which init learned that SIGTERM was sent.
fn stopping_at(now: u64, grace: u64, told: Option<u64>) -> Option<Stopping>
    ensures { result ≡ stopping_at now grace told }
{
    match told {
        Some(told) => {
            let term = now.saturating_sub(told);
            Some(Stopping {
                term,
                kill: grace.saturating_sub(term),
            })
        }
        None => None,
    }
}

/// Returns the seconds until a hold ends.
fn held_at(now: u64, why: Why) -> Option<u64>
    ensures { result ≡ held_at now why }
{
    match why {
        Why::Held(since) => Some(HOLD.saturating_sub(now.saturating_sub(since))),
        _ => None,
    }
}

/// Returns the seconds since the end of a child.
fn ended_at(now: u64, last: Option<Ending>) -> Option<u64>
    ensures { result ≡ ended_at now last }
{
    match last {
        Some(ending) => Some(now.saturating_sub(ending.time)),
        None => None,
    }
}

fn row_by(now: u64, grace: u64, id: Id, row: Row) -> IdRow
    ensures { result ≡ row_by now grace id row }
{
    IdRow {
        id,
        row,
        runs: runs_at(now, row.births),
        stopping: stopping_at(now, grace, row.term),
        held: held_at(now, row.why),
        ended: ended_at(now, row.last),
    }
}

pub(crate) fn read_row(view: &TraceView, id: &Id) -> IdRow
    ensures { (past : List Event) → Viewed view.now past → result ≡ id_row past id.now }
{
    row_by(view.time(), u64::from(view.grace()), *id, view.row(id))
}

fn row_at(view: &TraceView, id: &Id, shape: RowFormat) -> Line
    ensures { (past : List Event) → Viewed view.now past → result ≡ row_at shape past id.now }
{
    Line::Row(shape, read_row(view, id))
}

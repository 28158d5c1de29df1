//! A timeline as lines of text.

use crate::clocks::{Zone, add_hours, add_moment, add_zone, is_one_offset};
use crate::dimensions::{FEWER_LINE, LEGEND_LINES, MANY};
use crate::lines::WhichRows;
use crate::words::{add_number, add_padded, add_stage, add_status, put};
use init_words::Stage;
use initview_timeline::{Drawn, Frame, Piece, Pieces, Row, State, Timeline, is_ill};
use std::alloc::{AllocError, Global};

pub(crate) fn stage_letter(stage: Stage) -> u8 {
    match stage {
        Stage::Sysinit => b'i',
        Stage::Boot => b'b',
        Stage::Run(level) => level.code(),
    }
}

/// Returns the character for a piece in a column. `first` says whether it is the first column of the piece.
fn sign_of(what: Drawn, first: bool) -> u8 {
    match what {
        Drawn::Name(stage, _) => stage_letter(stage),
        Drawn::Waited(_) | Drawn::Lives(_) if first => b'|',
        Drawn::Waited(_) => b'w',
        Drawn::Lives(_) | Drawn::Settled(_) => b'=',
        Drawn::Stage(_) | Drawn::Stops(_) => b'-',
        Drawn::Held => b'~',
        Drawn::Due => b'?',
        Drawn::Failed(_) => b'x',
        Drawn::Killed => b'K',
        Drawn::Unborn => b'!',
    }
}

/// Returns the character for the last of the pieces in a column, or `ground` if there is none.
fn last_in(frame: Frame, column: u64, ground: u8, pieces: &[Piece]) -> u8 {
    let mut found = ground;
    for piece in pieces {
        let first = frame.position(piece.from);
        if first <= column && column <= frame.position(piece.to) {
            found = sign_of(piece.what, first == column);
        }
    }
    found
}

fn add_cells(text: &mut Vec<u8>, frame: Frame, pieces: &Pieces) -> Result<(), AllocError> {
    for column in 0..frame.last.saturating_add(1) {
        let bar = last_in(frame, column, b'.', pieces.bars.as_slice());
        text.push(last_in(frame, column, bar, pieces.signs.as_slice()))?;
    }
    Ok(())
}

/// Adds the state of an id at the end.
pub(crate) fn add_state(text: &mut Vec<u8>, state: State) -> Result<(), AllocError> {
    match state {
        State::Due => put(text, b"not yet"),
        State::Runs => put(text, b"runs"),
        State::Stopping => put(text, b"stopping"),
        State::Stopped => put(text, b"stopped"),
        State::Held => put(text, b"held"),
        State::Ended(None) => put(text, b"no start"),
        State::Ended(status) => add_status(text, status),
    }
}

fn add_row(text: &mut Vec<u8>, alloc: Global, frame: Frame, row: &Row) -> Result<(), AllocError> {
    let mut state = Vec::new(alloc);
    add_state(&mut state, row.state)?;
    add_padded(text, 9, row.id.as_bytes())?;
    add_cells(text, frame, &row.pieces)?;
    put(text, b" ")?;
    match row.pieces.signs.len() as u64 {
        0 => put(text, state.as_slice())?,
        faults => {
            add_padded(text, 9, state.as_slice())?;
            add_number(text, b"", faults, b"")?;
        }
    }
    put(text, b"\n")
}

/// Adds the first and last time of a drawing, separated by a blank or a newline.
pub(crate) fn add_times(
    text: &mut Vec<u8>,
    zone: Zone,
    timeline: &Timeline,
    between: &[u8],
) -> Result<(), AllocError> {
    add_moment(text, zone, timeline.start)?;
    if !is_one_offset(zone, timeline.start, timeline.end) {
        add_zone(text, zone, timeline.start)?;
    }
    put(text, between)?;
    put(text, b"to ")?;
    add_moment(text, zone, timeline.end)?;
    add_zone(text, zone, timeline.end)
}

/// Adds the stage at the end, and the number of ids with faults.
pub(crate) fn add_facts(text: &mut Vec<u8>, timeline: &Timeline) -> Result<(), AllocError> {
    add_stage(text, timeline.stage)?;
    put(
        text,
        if timeline.settled {
            b", settled,"
        } else {
            b", not settled,"
        },
    )
}

/// Reports whether a row is drawn.
pub(crate) fn is_drawn(which: WhichRows, row: &Row) -> bool {
    match which {
        WhichRows::All => true,
        WhichRows::Faulty => is_ill(row),
    }
}

/// Returns the number of rows that are drawn.
pub(crate) fn drawn(which: WhichRows, rows: &[Row]) -> usize {
    rows.iter().filter(|row| is_drawn(which, row)).count()
}

/// Returns the number of rows with faults.
pub(crate) fn ill(rows: &[Row]) -> u64 {
    rows.iter().filter(|row| is_ill(row)).count() as u64
}

/// Returns a time that is drawn at this position or later.
fn time_of_place(frame: Frame, position: u64) -> u64 {
    let part = position.saturating_mul(frame.span());
    frame.start.saturating_add(part.div_ceil(frame.last.max(1)))
}

/// Adds the time of day at every fourteenth column, if there is room for it.
fn add_axis(text: &mut Vec<u8>, zone: Zone, frame: Frame) -> Result<(), AllocError> {
    put(text, b"    ")?;
    for number in 0..frame.last.saturating_add(4) / 14 {
        put(text, b"     |")?;
        add_hours(text, zone, time_of_place(frame, number.saturating_mul(14)))?;
    }
    put(text, b"\n")
}

/// Adds the parts, which are given one per line, joined into lines of at most `width` columns.
fn add_wrapped(text: &mut Vec<u8>, width: u64, parts: &[u8]) -> Result<(), AllocError> {
    let mut column: u64 = 0;
    for part in parts.split(|byte| *byte == b'\n') {
        let length = part.len() as u64;
        let end = column.saturating_add(1).saturating_add(length);
        if column == 0 {
            column = length;
        } else if end <= width {
            put(text, b" ")?;
            column = end;
        } else {
            put(text, b"\n")?;
            column = length;
        }
        put(text, part)?;
    }
    put(text, b"\n")
}

/// Adds the times of the drawing, and the state at the end.
fn add_front(
    text: &mut Vec<u8>,
    alloc: Global,
    zone: Zone,
    width: u64,
    timeline: &Timeline,
) -> Result<(), AllocError> {
    let rows = timeline.rows.as_slice();
    let mut times = Vec::new(alloc);
    add_times(&mut times, zone, timeline, b"\n")?;
    add_wrapped(text, width, &times)?;
    let mut facts = Vec::new(alloc);
    add_facts(&mut facts, timeline)?;
    add_number(&mut facts, b"\n", ill(rows), b" of ")?;
    add_number(&mut facts, b"", rows.len() as u64, b" with faults")?;
    add_wrapped(text, width, &facts)
}

/// Adds rows of a timeline as lines with this number of columns: its times; the state at the end; the time of every
/// fourteenth column; a row for the stages, and one for each id; and the legend. The ids take nine columns, their
/// states at the end and numbers of faults take thirteen, and the drawing takes the others, at least one.
pub(crate) fn add_chart(
    text: &mut Vec<u8>,
    alloc: Global,
    zone: Zone,
    width: u64,
    which: WhichRows,
    timeline: &Timeline,
) -> Result<(), AllocError> {
    let frame = timeline.frame(width.saturating_sub(23));
    add_front(text, alloc, zone, width, timeline)?;
    add_axis(text, zone, frame)?;
    put(text, b"level    ")?;
    add_cells(text, frame, &timeline.stages)?;
    put(text, b"\n")?;
    for row in timeline.rows.as_slice() {
        if is_drawn(which, row) {
            add_row(text, alloc, frame, row)?;
        }
    }
    for parts in LEGEND_LINES {
        add_wrapped(text, width, parts)?;
    }
    let rows = timeline.rows.as_slice();
    let drawn = drawn(which, rows);
    if drawn > MANY && drawn as u64 > ill(rows) {
        add_wrapped(text, width, FEWER_LINE)?;
    }
    Ok(())
}

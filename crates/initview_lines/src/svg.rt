//! A timeline as a picture: one SVG document.

use crate::chart::{add_facts, add_state, add_times, drawn, ill, is_drawn, stage_letter};
use crate::clocks::{Zone, add_day, add_hours, add_moment, local_seconds};
use crate::dimensions::{
    AT_END, BAND, DAY, DRAWING, DUE, FAILED, FAULTS, FEWER, HEAD, HELD, HOUR, KILLED, LEGEND,
    LETTER_ROOM, LEVEL, LIVES, LOW, LOW_HOURS, LOW_ROWS, LOW_SECONDS, MANY, MARGINS, NAME, NAME_AT,
    SETTLED, STAGE, STATE, STEPS, STOPS, STYLE, TALL, TALL_ROWS, TICK, TICKS, TOP_HOURS,
    TOP_SECONDS, UNBORN, WAITED, WORDS_ROOM,
};
use crate::lines::WhichRows;
use crate::words::{add_number, add_stage, add_status, put};
use init_words::Stage;
use initview_timeline::{Drawn, Frame, Piece, Pieces, Row, Timeline, is_ill, is_loud};
use std::alloc::AllocError;

/// Adds bytes as XML text.
fn add_escaped(text: &mut Vec<u8>, bytes: &[u8]) -> Result<(), AllocError> {
    for byte in bytes {
        match byte {
            b'&' => put(text, b"&amp;")?,
            b'<' => put(text, b"&lt;")?,
            b'>' => put(text, b"&gt;")?,
            b'"' => put(text, b"&quot;")?,
            _ => text.push(*byte)?,
        }
    }
    Ok(())
}

/// Returns the shape of a piece, up to its position.
fn look_of(what: Drawn) -> &'static [u8] {
    match what {
        Drawn::Stage(_) => STAGE,
        Drawn::Settled(_) => SETTLED,
        Drawn::Name(_, _) => NAME,
        Drawn::Waited(_) => WAITED,
        Drawn::Lives(_) => LIVES,
        Drawn::Stops(_) => STOPS,
        Drawn::Held => HELD,
        Drawn::Due => DUE,
        Drawn::Failed(_) => FAILED,
        Drawn::Killed => KILLED,
        Drawn::Unborn => UNBORN,
    }
}

/// Adds the description of a piece, which follows its times.
fn add_said(text: &mut Vec<u8>, what: Drawn) -> Result<(), AllocError> {
    match what {
        Drawn::Stage(_) | Drawn::Name(_, _) => put(text, b"entered"),
        Drawn::Settled(_) => put(text, b"settled"),
        Drawn::Waited(life) | Drawn::Lives(life) | Drawn::Failed(life) => match life.end {
            Some(ending) => add_status(text, ending.status),
            None => put(text, b"runs"),
        },
        Drawn::Stops(_) => put(text, b"TERM sent"),
        Drawn::Held => put(text, b"held"),
        Drawn::Due => put(text, b"not started"),
        Drawn::Killed => put(text, b"KILL sent"),
        Drawn::Unborn => put(text, b"start failed"),
    }
}

/// Adds the subject of a piece: a stage, an id, or a child of the id.
fn add_whose(text: &mut Vec<u8>, id: &[u8], what: Drawn) -> Result<(), AllocError> {
    match what {
        Drawn::Stage(stage) | Drawn::Settled(stage) | Drawn::Name(stage, _) => {
            add_stage(text, Some(stage))
        }
        Drawn::Waited(life) | Drawn::Lives(life) | Drawn::Stops(life) | Drawn::Failed(life) => {
            add_escaped(text, id)?;
            add_number(text, b" ", u64::from(life.number.0), b"")
        }
        Drawn::Held | Drawn::Due | Drawn::Killed | Drawn::Unborn => add_escaped(text, id),
    }
}

/// Begins a piece: its tooltip, and its shape.
fn add_tip(text: &mut Vec<u8>, zone: Zone, id: &[u8], piece: &Piece) -> Result<(), AllocError> {
    put(text, b"<g><title>")?;
    add_whose(text, id, piece.what)?;
    put(text, b": ")?;
    add_moment(text, zone, piece.from)?;
    if piece.to != piece.from {
        put(text, b" to ")?;
        add_moment(text, zone, piece.to)?;
    }
    put(text, b": ")?;
    add_said(text, piece.what)?;
    put(text, b"</title>")?;
    put(text, look_of(piece.what))
}

/// Adds the name of a stage if it fits, otherwise its letter if that fits.
fn add_name(text: &mut Vec<u8>, room: u64, stage: Stage) -> Result<(), AllocError> {
    if room >= WORDS_ROOM {
        add_stage(text, Some(stage))
    } else if room >= LETTER_ROOM {
        put(text, &[stage_letter(stage)])
    } else {
        Ok(())
    }
}

/// Adds bars, whose width shows their duration, marks, each at its position, and the names of stages.
fn add_pieces(
    text: &mut Vec<u8>,
    zone: Zone,
    frame: Frame,
    id: &[u8],
    pieces: &Pieces,
) -> Result<(), AllocError> {
    for bar in pieces.bars.as_slice() {
        add_tip(text, zone, id, bar)?;
        add_number(text, b"", frame.left(bar.from, bar.to), b"\" width=\"")?;
        add_number(text, b"", frame.width(bar.from, bar.to), b"\"/></g>\n")?;
    }
    for sign in pieces.signs.as_slice() {
        let position = frame.position(sign.from);
        add_tip(text, zone, id, sign)?;
        add_number(text, b"", position, b"\"/>")?;
        if let Drawn::Name(stage, to) = sign.what {
            add_number(text, NAME_AT, position, b"\">")?;
            add_name(text, frame.width(sign.from, to), stage)?;
            put(text, b"</text>")?;
        }
        put(text, b"</g>\n")?;
    }
    Ok(())
}

/// Adds a time of the axis, above or below the rows, with the seconds since the first time, or the day, under it.
fn add_axis_time(
    text: &mut Vec<u8>,
    zone: Zone,
    frame: Frame,
    time: u64,
    above: &[u8],
    below: &[u8],
) -> Result<(), AllocError> {
    put(text, above)?;
    add_hours(text, zone, time)?;
    put(text, below)?;
    if frame.span() < HOUR {
        add_number(text, b"+", time.saturating_sub(frame.start), b" s")?;
    } else if frame.span() >= DAY {
        add_day(text, zone, time)?;
    }
    put(text, b"</text>")
}

/// Returns the seconds between two ticks. For long spans, it is a whole number of days.
fn step_of(span: u64) -> u64 {
    for step in STEPS {
        if span < step.saturating_mul(TICKS) {
            return step;
        }
    }
    (span / (TICKS * DAY) + 1).saturating_mul(DAY)
}

/// Returns the time of a tick. If the drawing shows less than an hour, ticks are counted from the first time; otherwise
/// they are at multiples of the step within the day.
fn tick_time(zone: Zone, frame: Frame, number: u64) -> u64 {
    let step = step_of(frame.span());
    let shown = local_seconds(zone, frame.start);
    let first = if frame.span() < HOUR {
        shown
    } else {
        shown.div_ceil(step.max(1)).saturating_mul(step)
    };
    let offset = first.saturating_sub(shown);
    frame
        .start
        .saturating_add(offset)
        .saturating_add(number.saturating_mul(step))
}

/// Adds the ticks that are not after the last time: a vertical line, and its time above the rows and below them.
fn add_ticks(text: &mut Vec<u8>, zone: Zone, frame: Frame) -> Result<(), AllocError> {
    for number in 0..TICKS {
        let time = tick_time(zone, frame, number);
        if time <= frame.end {
            add_number(
                text,
                b"<g transform=\"translate(",
                frame.position(time),
                TICK,
            )?;
            add_axis_time(text, zone, frame, time, TOP_HOURS, TOP_SECONDS)?;
            add_axis_time(text, zone, frame, time, LOW_HOURS, LOW_SECONDS)?;
            put(text, b"</g>\n")?;
        }
    }
    Ok(())
}

/// Returns the end of an element, which is highlighted if `loud` is set.
fn loud_if(loud: bool) -> &'static [u8] {
    if loud { b" r\">" } else { b"\">" }
}

/// Adds the row of an id at a vertical position.
fn add_row(
    text: &mut Vec<u8>,
    zone: Zone,
    frame: Frame,
    top: u64,
    height: u64,
    row: &Row,
) -> Result<(), AllocError> {
    add_number(text, b"<svg y=\"", top, b"\" height=\"")?;
    add_number(text, b"", height, BAND)?;
    put(text, loud_if(is_ill(row)))?;
    add_escaped(text, row.id.as_bytes())?;
    put(text, STATE)?;
    put(text, loud_if(is_loud(row.state)))?;
    add_state(text, row.state)?;
    if !row.pieces.signs.is_empty() {
        add_number(text, FAULTS, row.pieces.signs.len() as u64, b"")?;
    }
    put(text, b"</text>\n")?;
    add_pieces(text, zone, frame, row.id.as_bytes(), &row.pieces)?;
    put(text, b"</svg>\n")
}

/// Adds the part above the rows: the size, the colors, the times, the state at the end, and the legend.
fn add_front(
    text: &mut Vec<u8>,
    zone: Zone,
    timeline: &Timeline,
    drawn: usize,
    bottom: u64,
) -> Result<(), AllocError> {
    let rows = timeline.rows.as_slice();
    let height = bottom.saturating_add(MARGINS);
    let faulty = ill(rows);
    add_number(text, HEAD, height, b"\" viewBox=\"0 0 1130 ")?;
    add_number(text, b"", height, b"\">\n<title>init: ")?;
    add_times(text, zone, timeline, b" ")?;
    put(text, STYLE)?;
    add_times(text, zone, timeline, b" ")?;
    put(text, b"</text>\n<text x=\"80\" y=\"40\">")?;
    add_facts(text, timeline)?;
    put(text, b" <tspan class=\"z")?;
    put(text, loud_if(faulty > 0))?;
    add_number(text, b"", faulty, b" of ")?;
    add_number(text, b"", rows.len() as u64, LEGEND)?;
    if drawn > MANY && drawn as u64 > faulty {
        put(text, FEWER)?;
    }
    put(text, if drawn > MANY { LOW_ROWS } else { TALL_ROWS })?;
    add_number(text, b"", bottom, b"\">\n")
}

/// Adds rows of a timeline as an SVG document: its times, the state at the end and the legend; an axis with the times
/// of day above and below the rows; a row for the stages, and one for each id, with its state at the end and its number
/// of faults. Faults are highlighted, and each shape has a tooltip that describes it. The document is 1,130 wide, and
/// its rows are 22 high, or 12 if there are more than 60. It is self-contained, and has colors for light and dark
/// backgrounds.
pub(crate) fn add_svg(
    text: &mut Vec<u8>,
    zone: Zone,
    which: WhichRows,
    timeline: &Timeline,
) -> Result<(), AllocError> {
    let frame = timeline.frame(DRAWING);
    let rows = timeline.rows.as_slice();
    let drawn = drawn(which, rows);
    let height = if drawn > MANY { LOW } else { TALL };
    let bottom = LEVEL.saturating_add(height.saturating_mul(drawn as u64));
    add_front(text, zone, timeline, drawn, bottom)?;
    add_ticks(text, zone, frame)?;
    put(text, AT_END)?;
    add_pieces(text, zone, frame, b"", &timeline.stages)?;
    let mut top = LEVEL;
    for row in rows {
        if is_drawn(which, row) {
            add_row(text, zone, frame, top, height, row)?;
            top = top.saturating_add(height);
        }
    }
    put(text, b"</svg>\n</svg>\n")
}

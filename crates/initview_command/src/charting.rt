//! The `timeline` command.

ghost use Rattle.std.specs.Prelude.{◌≡◌, List, IfOk};
ghost use Rattle.initview_command.specs.Words.{Event, Viewed, seen_of, drawn_of, scene_of};
ghost use Rattle.initview_command.specs.Charting.{drawing, width_of};

use crate::showing::{Answer, Query, TraceOutcome, stop_status};
use init_words::Memory;
use initview_lines::{Line, WhichRows};
use initview_timeline::{Marks, Seen, timeline_of};
use std::alloc::{AllocError, Global};
use text_lines::read_below;
use trace_view::{ObservedTrace, TraceView};

/// The default, the minimum and the maximum number of columns.
pub const WIDTH: u64 = 80;

pub const WIDTH_LEAST: u64 = 40;

pub const WIDTH_LIMIT: u64 = 1_000;

/// The form of a timeline.
#[derive(Clone, Copy)]
pub enum Form {
    /// Lines with this number of columns.
    Lines(u64, WhichRows),
    /// A picture, as one SVG document.
    Svg(WhichRows),
}

/// Returns the width that an argument means.
pub(crate) fn width_of(word: &str) -> Option<u64>
    ensures { result ≡ width_of word.now }
{
    let width = read_below(word.as_bytes(), WIDTH_LIMIT + 1)?;
    if WIDTH_LEAST <= width {
        Some(width)
    } else {
        None
    }
}

/// Returns the input of a timeline.
fn seen_by<'a>(marks: &'a Marks, view: &'a TraceView) -> Seen<'a>
    ensures { (past : List Event) → Viewed view.now past
        → marks.now ≡ seen_of past → scene_of result ≡ drawn_of past }
{
    Seen {
        entries: view.table().entries(),
        marks: marks.as_slice(),
        stage: view.stage(),
        settled: view.is_settled(),
        complete: view.is_complete(),
        start: marks.start(),
        end: view.time(),
    }
}

/// Draws a timeline in its form.
fn draw(alloc: Global, form: Form, marks: &Marks, view: &TraceView) -> Result<Line, AllocError>
    ensures { IfOk result (λ line. (past : List Event) → Viewed view.now past
        → marks.now ≡ seen_of past → line ≡ drawing form past) }
{
    let timeline = timeline_of(alloc, &seen_by(marks, view))?;
    Ok(match form {
        Form::Lines(width, which) => Line::Chart(width, which, timeline),
        Form::Svg(which) => Line::Svg(which, timeline),
    })
}

impl Query for Form {
    ghost use Rattle.initview_command.specs.Charting.{drawing_by};

    type Seen = Marks;

    ghost gives = { λ form path. drawing_by form };

    fn answer(
        self,
        alloc: Global,
        text: &mut ObservedTrace<Marks>,
        shown: &TraceOutcome,
    ) -> Result<Answer, Memory> {
        let drawn = draw(alloc, self, text.seen(), text.view())?;
        let mut lines = Vec::new(alloc);
        lines.push(drawn)?;
        Ok((lines, stop_status(shown.stop)))
    }
}

//! The messages for a text that begins in the middle of a run. Each depends only on one happening, and no law is
//! checked, because the earlier part of the run is unknown.

ghost use Rattle.std.specs.Prelude.{◌≡◌, ◌^◌, ◌<◌, ◌∷◌, ◌++◌, [], List, ℕ, length, true, option_map, IfOk, OnOk};
ghost use Rattle.initview_lines.specs.CommonWords.{Event, time_of, line_left, capped, left_of};
ghost use Rattle.initview_lines.specs.Happenings.{line_at, news_of};
ghost use Rattle.initview_lines.specs.Parts.{HasTold, IsTelling, IsToldOf, TellsOn};
ghost use Rattle.initview_lines.specs.declared.lines.Line.{Line};

use crate::happenings::news_alone;
use crate::lines::Line;
use init_words::Memory;
use respawn_limit::CLOCK_LIMIT;
use std::alloc::{AllocError, Global};
use std::marker::Model;
use trace_events::{Happening, HappeningIn};
use trace_text::ReadFault;
use trace_verdict::TextReader;
use trace_view::ViewEnd;

/// A view of a text that begins in the middle of a run and arrives in pieces of any length. The view ends at the first
/// line at which no happening begins.
///
/// Contracts describe it by the text that it has taken (`HasTold`).
#[derive(Drop)]
pub struct PartView {
    reader: TextReader<Global>,
    time: u64,
    stop: Option<ViewEnd>,
}

impl Model for PartView {
    ghost use Rattle.initview_lines.specs.Parts.{PartState};

    ghost Value = { PartState };

    ghost view = { λ v. record { reading = v.reader; time = v.time; stop = v.stop } };
}

/// Returns the time after a happening. A clock that is set back does not change it.
fn time_after(time: u64, happening: &HappeningIn<Global>) -> u64
    ensures { (past : List Event) → time ≡ time_of past
        → result ≡ time_of (happening.now ∷ past) }
{
    match happening {
        Happening::Clock(reading) => (*reading).min(CLOCK_LIMIT).max(time),
        _ => time,
    }
}

/// Adds the message for a single happening, if it has one.
fn add_alone(
    lines: &mut Vec<Line>,
    time: u64,
    happening: &HappeningIn<Global>,
) -> Result<(), AllocError>
    ensures { OnOk result (lines.new.items
        ≡ lines.old.items ++ line_at time (news_of happening.now [])) }
{
    if let Some(news) = news_alone(happening) {
        lines.push(Line::Happened(time, news))?;
    }
    Ok(())
}

impl PartView {
    /// Creates a view that has taken no text. This does not allocate.
    pub fn new(alloc: Global) -> PartView
        ensures { HasTold result [] [] }
    {
        PartView {
            reader: TextReader::new(alloc),
            time: 0,
            stop: None,
        }
    }

    /// Adds the line for the next happening, if the happening is complete.
    fn tell_next(&mut self, lines: &mut Vec<Line>) -> Result<bool, Memory>
        ensures goes { IfOk result (λ more. (past_lines : List Line) (text : List ℕ)
            → length text < 2 ^ 64 → TellsOn more self.old (past_lines ++ lines.old.items)
            self.new (past_lines ++ lines.new.items) text) }
        ensures shorter { IfOk result (λ more. more ≡ true
            → length self.new.reading.over < length self.old.reading.over) }
    {
        if let Some(_) = self.stop {
            return Ok(false);
        }
        match self.reader.next() {
            Ok(Some(happening)) => {
                self.time = time_after(self.time, &happening);
                add_alone(lines, self.time, &happening)?;
                drop(happening);
                Ok(true)
            }
            Ok(None) => Ok(false),
            Err(ReadFault::Line(number)) => {
                self.stop = Some(ViewEnd::Torn(number));
                Ok(false)
            }
            Err(ReadFault::Memory) => Err(Memory),
        }
    }

    fn feed(&mut self, piece: &[u8]) -> Result<(), Memory>
        ensures { OnOk result
            ((past_lines : List Line) (text : List ℕ) → HasTold self.old past_lines text
            → IsTelling self.new past_lines (text ++ piece.now)) }
    {
        if let Some(_) = self.stop {
            return Ok(());
        }
        self.reader.feed(piece)?;
        Ok(())
    }

    /// Takes the next piece of the text, and adds the lines for all complete happenings. If memory runs out, the view
    /// must not be used any more.
    pub fn take(&mut self, piece: &[u8], lines: &mut Vec<Line>) -> Result<(), Memory>
        ensures { OnOk result ((past_lines : List Line) (text : List ℕ)
            → length (text ++ piece.now) < 2 ^ 64
            → HasTold self.old (past_lines ++ lines.old.items) text
            → HasTold self.new (past_lines ++ lines.new.items) (text ++ piece.now)) }
    {
        self.feed(piece)?;
        while self.tell_next(lines)? {}
        Ok(())
    }

    /// Returns the number of the line, counted from 1, at which an incomplete happening begins, if there is one.
    fn open_line(&self) -> Option<u64>
        ensures { result ≡ left_of self.now.stop
            (option_map capped (line_left self.now.reading.lines self.now.reading.over)) }
    {
        match self.stop {
            Some(_) => None,
            None => self.reader.open_line(),
        }
    }

    /// Returns the reason why the view ended, if it did, and the number of the line, counted from 1, at which an
    /// incomplete happening begins, if there is one.
    pub fn end(&self) -> (Option<ViewEnd>, Option<u64>)
        ensures { (past_lines : List Line) (text : List ℕ) → length text < 2 ^ 64
            → HasTold self.now past_lines text → IsToldOf text result.0 result.1 past_lines }
    {
        let open_line = self.open_line();
        (self.stop, open_line)
    }
}

//! The judge of the text of a trace that arrives in pieces.

ghost use Rattle.std.specs.Prelude.{◌≡◌, ◌^◌, ◌<◌, ◌+◌, List, ℕ, ◌++◌, [], ◌∷◌, length, true, option_map, IfOk, OnOk, OnErr};
ghost use Rattle.text_lines.specs.Lines.{newlines};
ghost use Rattle.trace_events.specs.Event.{Event};
ghost use Rattle.trace_text.specs.Lines.{trace_text};
ghost use Rattle.trace_verdict.specs.Fronts.{line_left};
ghost use Rattle.trace_verdict.specs.Readers.{capped};
ghost use Rattle.trace_verdict.specs.Answers.{Answers};
ghost use Rattle.trace_verdict.specs.Judges.{JudgeGoesOn, HasTaken, Holds, IsAt, IsFound, left_of};

use crate::findings::{Breach, Finding};
use crate::readers::TextReader;
use init_words::Memory;
use std::alloc::{Allocator, Global};
use std::marker::Model;
use trace_check::TraceJudge;
use trace_events::HappeningIn;
use trace_text::{ReadFault, print_one};

/// A judge of the text of a trace, which arrives in pieces of any length.
///
/// Contracts describe a judge by the text that it has taken (`HasTaken`).
#[derive(Drop)]
pub struct TextJudge<A: Allocator = Global> {
    alloc: A,
    reader: TextReader<A>,
    judge: TraceJudge<A>,
    position: u64,
    finding: Finding<Breach<A>>,
}

impl<A: Allocator> Model for TextJudge<A> {
    ghost use Rattle.trace_verdict.specs.Judges.{TextState};

    ghost Value = { TextState };

    ghost view = { λ j. record {
      reading = j.reader;
      judging = j.judge;
      position = j.position;
      finding = j.finding;
    } };
}

/// Judges the next happening, unless an earlier one broke a law. If memory allocation fails, nothing changes.
fn judge_next<A: Allocator + Copy>(
    alloc: A,
    judge: &mut TraceJudge<A>,
    finding: &mut Finding<Breach<A>>,
    position: u64,
    line: u64,
    happening: &HappeningIn<A>,
) -> Result<(), Memory>
    ensures ok { OnOk result ((trace : List Event) → IsFound finding.old judge.old trace
        → position ≡ length trace → line ≡ newlines (trace_text trace) + 1
        → IsFound finding.new judge.new (trace ++ happening.now ∷ [])) }
    ensures err { OnErr result ((finding.new ≡ finding.old) × (judge.new ≡ judge.old)) }
{
    match finding {
        Finding::Lawful => {}
        _ => return Ok(()),
    }
    if let Some(law) = judge.take(happening)? {
        let text = print_one(alloc, happening)?;
        *finding = Finding::Breach(Breach::new(position, law, line, text));
    }
    Ok(())
}

impl<A: Allocator + Copy> TextJudge<A> {
    /// Creates a judge that has taken no text. This does not allocate.
    pub fn new(alloc: A) -> TextJudge<A>
        ensures { HasTaken result [] }
    {
        TextJudge {
            alloc,
            reader: TextReader::new(alloc),
            judge: TraceJudge::new(alloc),
            position: 0,
            finding: Finding::Lawful,
        }
    }

    /// Takes the next piece of the text without judging it yet. If memory allocation fails, nothing changes.
    pub fn feed(&mut self, piece: &[u8]) -> Result<(), Memory>
        ensures ok { OnOk result ((text : List ℕ) → IsAt self.old text
            → IsAt self.new (text ++ piece.now)) }
        ensures err { OnErr result (self.new ≡ self.old) }
    {
        if let Finding::Torn(_) = self.finding {
            return Ok(());
        }
        self.reader.feed(piece)?;
        Ok(())
    }

    /// Judges the next happening, if it is complete, and returns whether there may be more. If memory allocation fails,
    /// nothing changes.
    fn take_next(&mut self) -> Result<bool, Memory>
        ensures goes { IfOk result (λ more. (text : List ℕ) → length text < 2 ^ 64
            → JudgeGoesOn more self.old self.new text) }
        ensures shorter { IfOk result (λ more. more ≡ true
            → length self.new.reading.over < length self.old.reading.over) }
        ensures err { OnErr result (self.new ≡ self.old) }
    {
        if let Finding::Torn(_) = self.finding {
            return Ok(false);
        }
        let line = self.reader.lines().saturating_add(1);
        match self.reader.peek() {
            Ok(Some((happening, size))) => {
                judge_next(
                    self.alloc,
                    &mut self.judge,
                    &mut self.finding,
                    self.position,
                    line,
                    &happening,
                )?;
                self.reader.skip(&happening, size);
                self.position = self.position.saturating_add(1);
                Ok(true)
            }
            Ok(None) => Ok(false),
            Err(ReadFault::Line(number)) => {
                self.finding = Finding::Torn(number);
                Ok(false)
            }
            Err(ReadFault::Memory) => Err(Memory),
        }
    }

    /// Judges all complete happenings. If memory allocation fails, those not judged are kept for the next call.
    pub fn judge(&mut self) -> Result<(), Memory>
        ensures ok { OnOk result ((text : List ℕ) → length text < 2 ^ 64
            → IsAt self.old text → HasTaken self.new text) }
        ensures err { OnErr result ((text : List ℕ) → length text < 2 ^ 64
            → IsAt self.old text → IsAt self.new text) }
    {
        while self.take_next()? {}
        Ok(())
    }

    /// Takes the next piece of the text and judges all complete happenings. If memory allocation fails, the judge has
    /// taken either nothing of the piece (see `feed`) or the whole piece (see `judge`).
    pub fn take(&mut self, piece: &[u8]) -> Result<(), Memory>
        ensures ok { OnOk result ((text : List ℕ) → length (text ++ piece.now) < 2 ^ 64
            → HasTaken self.old text → HasTaken self.new (text ++ piece.now)) }
        ensures err { OnErr result (Holds self.old self.new piece.now) }
    {
        self.feed(piece)?;
        self.judge()?;
        Ok(())
    }

    fn open_line(&self) -> Option<u64>
        ensures { result ≡ left_of self.now.finding
            (option_map capped (line_left self.now.reading.lines self.now.reading.over)) }
    {
        match self.finding {
            Finding::Torn(_) => None,
            _ => self.reader.open_line(),
        }
    }

    /// Returns the verdict on the text taken; the number of the line, counted from 1, at which an incomplete happening
    /// begins, if there is one; and the number of complete happenings. An incomplete happening is not judged.
    pub fn answer(&self) -> (&Finding<Breach<A>>, Option<u64>, u64)
        ensures { (text : List ℕ) → length text < 2 ^ 64 → HasTaken self.now text
            → Answers text result.0.now result.1 result.2 }
    {
        let open_line = self.open_line();
        (&self.finding, open_line, self.position)
    }
}

//! The pieces of a row of a timeline: bars, which extend from one time to another, and signs at a single time on top.

ghost use Rattle.std.specs.Prelude.{◌≡◌, ◌++◌, if◌then◌else◌, [], ◌∷◌, OnOk};
ghost use Rattle.initview_timeline.specs.Pieces.{bars_of, begins, has_failed, is_start, life_bars, life_signs, mark_bars, mark_signs, marks_bars, marks_signs, next_begin, piece, signs_of};

use crate::lives::{Life, is_for};
use crate::marks::{Shown, TimelineMark};
use init_words::{Id, SignalKind, Stage, Status};
use respawn_limit::HOLD;
use std::alloc::{AllocError, Global};
use std::marker::Model;

/// The meaning of a piece.
#[derive(Clone, Copy)]
pub enum Drawn {
    /// A stage; a stage that was announced settled; the name of a stage, with the time at which the stage ends.
    Stage(Stage),
    Settled(Stage),
    Name(Stage, u64),
    /// A living child that init waits for; any other living child; a child that was sent SIGTERM and is still alive.
    Waited(Life),
    Lives(Life),
    Stops(Life),
    /// The id is held; the id was not started although it starts in the stage.
    Held,
    Due,
    /// A child failed: it ended without SIGTERM and not with exit status 0; SIGKILL was sent; a start failed.
    Failed(Life),
    Killed,
    Unborn,
}

/// A piece and the times at which it begins and ends, in seconds.
#[derive(Clone, Copy)]
pub struct Piece {
    pub what: Drawn,
    pub from: u64,
    pub to: u64,
}

/// The bars of a row, later ones on top of earlier ones, and the signs on top of the bars.
#[derive(Drop)]
pub struct Pieces {
    pub bars: Vec<Piece>,
    pub signs: Vec<Piece>,
}

impl Model for Pieces {
    ghost use Rattle.initview_timeline.specs.Pieces.{Drawing};

    ghost Value = { Drawing };

    ghost view = { λ p. record { bars = p.bars.items; signs = p.signs.items } };
}

/// Reports whether the event is a start of the id, successful or failed.
pub(crate) fn is_start(id: &Option<Id>, what: Shown) -> bool
    ensures { result ≡ is_start id.now what }
{
    matches!(what, Shown::Born(_, _) | Shown::NotBorn(_)) && is_for(id, what)
}

/// Reports whether the event ends a hold of the id: a stage, a table, or a start of the id. Without an id, reports
/// whether it ends a stage, which only the next stage does.
fn begins(id: &Option<Id>, what: Shown) -> bool
    ensures { result ≡ begins id.now what }
{
    match what {
        Shown::Entered(_) => true,
        Shown::Read => id.is_some(),
        _ => is_start(id, what),
    }
}

/// Returns the time of the first mark that ends the piece before it, or the last time.
pub(crate) fn next_begin(last: u64, id: &Option<Id>, later: &[TimelineMark]) -> u64
    ensures { result ≡ next_begin last id.now later.now }
{
    let mut rest = later;
    while let Some((mark, others)) = rest.split_first() {
        if begins(id, mark.what) {
            return mark.time;
        }
        rest = others;
    }
    last
}

/// Returns the time of the first mark after this one for which `begins` holds, given the time of the first from it on.
fn next_behind(
    next: u64,
    last: u64,
    id: &Option<Id>,
    mark: &TimelineMark,
    later: &[TimelineMark],
) -> u64
    ensures { next ≡ next_begin last id.now (mark.now ∷ later.now)
        → result ≡ next_begin last id.now later.now }
{
    if begins(id, mark.what) {
        next_begin(last, id, later)
    } else {
        next
    }
}

/// Reports whether a child failed: it ended without SIGTERM and not with exit status 0.
fn has_failed(life: &Life) -> bool
    ensures { result ≡ has_failed life.now }
{
    match (life.end, life.term) {
        (Some(ending), None) => !matches!(ending.status, Some(Status::Exit(0))),
        _ => false,
    }
}

impl Pieces {
    pub(crate) fn new(alloc: Global) -> Pieces
        ensures { result ≡ record { bars = []; signs = [] } }
    {
        Pieces {
            bars: Vec::new(alloc),
            signs: Vec::new(alloc),
        }
    }

    pub(crate) fn bar(&mut self, what: Drawn, from: u64, to: u64) -> Result<(), AllocError>
        ensures bars { OnOk result (self.new.bars ≡ self.old.bars ++ piece what from to) }
        ensures signs { OnOk result (self.new.signs ≡ self.old.signs) }
    {
        self.bars.push(Piece { what, from, to })?;
        Ok(())
    }

    fn sign(&mut self, what: Drawn, time: u64) -> Result<(), AllocError>
        ensures bars { OnOk result (self.new.bars ≡ self.old.bars) }
        ensures signs { OnOk result (self.new.signs ≡ self.old.signs ++ piece what time time) }
    {
        let (from, to) = (time, time);
        self.signs.push(Piece { what, from, to })?;
        Ok(())
    }

    /// Adds the bar of a life, a second bar on top from SIGTERM on, and a sign at the end if the child failed.
    fn add_life(&mut self, last: u64, waited: bool, life: Life) -> Result<(), AllocError>
        ensures bars { OnOk result (self.new.bars
            ≡ self.old.bars ++ life_bars last waited life) }
        ensures signs { OnOk result (self.new.signs ≡ self.old.signs ++ life_signs last life) }
    {
        let to = match life.end {
            Some(ending) => ending.time,
            None => last,
        };
        let what = if waited {
            Drawn::Waited(life)
        } else {
            Drawn::Lives(life)
        };
        self.bar(what, life.from, to)?;
        if let Some(term) = life.term {
            self.bar(Drawn::Stops(life), term, to)?;
        }
        if has_failed(&life) {
            self.sign(Drawn::Failed(life), to)?;
        }
        Ok(())
    }

    pub(crate) fn add_lives(
        &mut self,
        last: u64,
        waited: bool,
        lives: &[Life],
    ) -> Result<(), AllocError>
        ensures bars { OnOk result (self.new.bars
            ≡ self.old.bars ++ bars_of last waited lives.now) }
        ensures signs { OnOk result (self.new.signs
            ≡ self.old.signs ++ signs_of last lives.now) }
    {
        let mut rest = lives;
        while let Some((life, others)) = rest.split_first() {
            self.add_life(last, waited, *life)?;
            rest = others;
        }
        Ok(())
    }

    /// Adds the pieces for a mark: a stage and its name, a settled stage, a hold, a SIGKILL, or a failed start. Bars
    /// end at the time `next` at the latest.
    fn add_mark(&mut self, next: u64, mark: &TimelineMark) -> Result<(), AllocError>
        ensures bars { OnOk result (self.new.bars
            ≡ self.old.bars ++ mark_bars next mark.now.time mark.now.what) }
        ensures signs { OnOk result (self.new.signs
            ≡ self.old.signs ++ mark_signs next mark.now.time mark.now.what) }
    {
        match mark.what {
            Shown::Entered(stage) => {
                self.bar(Drawn::Stage(stage), mark.time, next)?;
                self.sign(Drawn::Name(stage, next), mark.time)
            }
            Shown::Settled(level) => self.bar(Drawn::Settled(Stage::Run(level)), mark.time, next),
            Shown::Held(_) => {
                let over = mark.time.saturating_add(HOLD);
                self.bar(Drawn::Held, mark.time, over.min(next))
            }
            Shown::Sent(_, SignalKind::Kill) => self.sign(Drawn::Killed, mark.time),
            Shown::NotBorn(_) => self.sign(Drawn::Unborn, mark.time),
            _ => Ok(()),
        }
    }

    /// Adds the marks of a row.
    pub(crate) fn add_marks(
        &mut self,
        last: u64,
        id: &Option<Id>,
        marks: &[TimelineMark],
    ) -> Result<(), AllocError>
        ensures bars { OnOk result (self.new.bars
            ≡ self.old.bars ++ marks_bars last id.now marks.now) }
        ensures signs { OnOk result (self.new.signs
            ≡ self.old.signs ++ marks_signs last id.now marks.now) }
    {
        let mut next = next_begin(last, id, marks);
        let mut rest = marks;
        while let Some((mark, later)) = rest.split_first() {
            next = next_behind(next, last, id, mark, later);
            if is_for(id, mark.what) {
                self.add_mark(next, mark)?;
            }
            rest = later;
        }
        Ok(())
    }
}

//! The pending requests.

ghost use Rattle.std.specs.Prelude.{◌≡◌, ◌∷◌, List};
ghost use Rattle.trace_view.specs.Words.{Event, Got, other_than, stage_of};
ghost use Rattle.trace_view.specs.Wishes.{wishes_of, first_wish_in, unless_here, next_stage_in};

use init_words::{Level, Stage};
use initctl_frame::HeardRequest;
use std::alloc::Allocator;
use trace_events::{CallSet, Goal, Happening, HappeningIn, in_run, is_level};

/// A pending request. Init starts no entry before it has carried the request out.
#[derive(Clone, Copy)]
pub enum Wish {
    /// Re-execute init.
    Reexec,
    /// Reread inittab.
    Reread,
    /// Enter another level.
    Level(Level),
    /// Call entries for a power event or by a letter.
    News,
}

/// The pending requests (telinit(8), initreq.h), and the state on which they depend.
#[derive(Clone, Copy, Default)]
pub(crate) struct Wishes {
    pub(crate) reexec: bool,
    pub(crate) reread: bool,
    pub(crate) heard: Option<Goal>,
    pub(crate) news: CallSet,
    /// Whether init has entered Boot.
    pub(crate) booted: bool,
    /// Whether init has announced that the level is settled, and no new stage or table has come since.
    pub(crate) announced: bool,
}

impl Wishes {
    /// Updates the pending requests for a happening; `stage` is in force after it.
    pub(crate) fn take<B: Allocator>(&mut self, stage: Option<Stage>, happening: &HappeningIn<B>)
        ensures { (past : List Event) → stage ≡ stage_of (happening.now ∷ past)
            → self.old ≡ wishes_of past → self.new ≡ wishes_of (happening.now ∷ past) }
    {
        match happening {
            Happening::Handed(_) => self.reexec = false,
            Happening::NewTable(_) => {
                self.reread = false;
                self.announced = false;
            }
            Happening::NotRead => self.reread = false,
            Happening::Enter(Stage::Boot, _) => {
                self.heard = None;
                self.booted = true;
                self.announced = false;
            }
            Happening::Enter(_, _) => {
                self.heard = None;
                self.announced = false;
            }
            Happening::Settle(_) => self.announced = true,
            Happening::Power(kind) => self.news.set_power(*kind, false),
            Happening::Call(letter) => self.news.set_letter(*letter, false),
            Happening::Got(request) => self.hear(stage, request),
            _ => {}
        }
    }

    fn hear(&mut self, stage: Option<Stage>, request: &HeardRequest)
        ensures { (past : List Event) → stage ≡ stage_of past → self.old ≡ wishes_of past
            → self.new ≡ wishes_of (Got request.now ∷ past) }
    {
        match request {
            HeardRequest::Reexec => self.reexec = true,
            HeardRequest::Reload => self.reread = true,
            HeardRequest::Level(level, grace) => {
                self.reread = !is_level(*level, stage) || self.reread;
                self.heard = Some(Goal {
                    level: *level,
                    grace: *grace,
                });
            }
            HeardRequest::Power(kind) => self.news.set_power(*kind, true),
            HeardRequest::Call(letter) => self.news.set_letter(*letter, true),
            HeardRequest::Nothing(_) => {}
        }
    }

    /// Returns the requested level, unless it is the stage in force.
    pub(crate) fn asked(self, stage: Option<Stage>) -> Option<Level>
        ensures { result ≡ unless_here stage self.heard }
    {
        let heard = self.heard?;
        if is_level(heard.level, stage) {
            None
        } else {
            Some(heard.level)
        }
    }

    /// Returns the request for a level, if the stage in force is another level.
    fn level(self, stage: Option<Stage>) -> Option<Goal>
        ensures { result ≡ other_than stage self.heard }
    {
        let (Some(Stage::Run(current)), Some(heard)) = (stage, self.heard) else {
            return None;
        };
        if heard.level == current {
            None
        } else {
            Some(heard)
        }
    }

    /// Returns the stage that init enters for the requested level, with the seconds between SIGTERM and SIGKILL. It is
    /// Boot if Boot was not entered yet and the level is not S.
    pub(crate) fn next_stage(self, stage: Option<Stage>) -> Option<(Stage, u16)>
        ensures { result ≡ next_stage_in stage self }
    {
        let wish = self.level(stage)?;
        if wish.level != Level::S && !self.booted {
            return Some((Stage::Boot, wish.grace));
        }
        Some((Stage::Run(wish.level), wish.grace))
    }

    /// Returns the request that init carries out first in this stage.
    pub(crate) fn first(self, stage: Option<Stage>) -> Option<Wish>
        ensures { result ≡ first_wish_in stage self }
    {
        if self.reexec {
            return Some(Wish::Reexec);
        }
        if self.reread {
            return Some(Wish::Reread);
        }
        if let Some(heard) = self.level(stage) {
            return Some(Wish::Level(heard.level));
        }
        if in_run(stage) && self.news.is_some() {
            return Some(Wish::News);
        }
        None
    }
}

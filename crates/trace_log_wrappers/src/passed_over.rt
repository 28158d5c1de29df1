//! Warnings about requests for a level that change nothing, or that a later request replaces.
//!
//! The warnings go to standard error only, so no contract covers them; `tools/pages.d/messages` reads the lines.

use init_words::{Level, Stage};
use initctl_frame::HeardRequest;
use std::alloc::Allocator;
use trace_events::{Happening, HappeningIn};

/// The level in force, its grace period, whether it is settled, and the level that was requested but has not been
/// entered yet.
#[derive(Clone, Copy, Default)]
pub(crate) struct Asked {
    now: Option<Level>,
    grace: u16,
    is_settled: bool,
    wish: Option<Level>,
}

impl Asked {
    /// Notes a happening. Warns on standard error if it is a request for a level that changes nothing or replaces
    /// another.
    pub(crate) fn note<A: Allocator>(&mut self, rt: &impl Eprint, happening: &HappeningIn<A>) {
        match happening {
            Happening::Enter(Stage::Run(level), grace) => {
                *self = Asked {
                    now: Some(*level),
                    grace: *grace,
                    ..Asked::default()
                };
            }
            Happening::Settle(_) => self.is_settled = true,
            Happening::Got(HeardRequest::Level(level, grace)) => self.hear(rt, *level, *grace),
            _ => {}
        }
    }

    /// Notes a request for a level. A request for the level in force cancels an earlier one for another level.
    fn hear(&mut self, rt: &impl Eprint, asked: Level, grace: u16) {
        let before = self.wish;
        let is_now = self.now == Some(asked);
        self.wish = if is_now { None } else { Some(asked) };
        let level = char::from(asked.code());
        let _ = match before {
            Some(other) if other != asked => eprintln!(rt;
                "initd: runlevel {} is skipped: runlevel {level} was requested before it was entered",
                char::from(other.code())
            ),
            None if is_now && self.is_settled => eprintln!(rt;
                "initd: runlevel {level} is settled; the request for it has no effect"
            ),
            None if is_now && grace != self.grace => eprintln!(rt;
                "initd: runlevel {level} is being entered; the request for it has no effect, and its {grace} seconds are ignored"
            ),
            None if is_now => eprintln!(rt;
                "initd: runlevel {level} is being entered; the request for it has no effect"
            ),
            _ => Ok(()),
        };
    }
}

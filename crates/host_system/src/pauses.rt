//! The length of pauses.

use crate::host_options::Pace;
use host_calls::Reply;
use init_words::Answer;
use std::rt::Clock;
use std::time::Instant;

/// The microseconds in a hundredth of a second.
const HUNDREDTH: u64 = 10_000;

/// The shortest pause after a turn in which something happened, in microseconds: this many, or `SHORT_A_CHILD` for
/// each child that a turn looks at, if that is more. So looks take at most half of the time.
const SHORT: u64 = 100;

const SHORT_A_CHILD: u64 = 2;

/// The limit of an idle pause if pauses depend on the cost of a turn: this many times the length of the turn before it,
/// or `REST` microseconds, if that is more. So looks take at most 0.05 % of one processor.
const REST_A_TURN: u64 = 2_000;

const REST: u64 = 100_000;

/// The microseconds in a second.
const SECOND: u64 = 1_000_000;

/// The pauses of a host, in microseconds.
#[derive(Drop)]
pub(crate) struct Pauses {
    shortest: u64,
    longest: u64,
    /// The longest pause while something may need a look.
    looking: u64,
    next: u64,
    /// Whether an idle pause depends on the length of the turn before it.
    by_cost: bool,
    /// Whether something has happened since the last pause.
    stirred: bool,
    /// The sum of all pauses since something last happened, if each pause is a tenth of that sum.
    passed: Option<u64>,
    /// When the turn began.
    turn: Option<Instant>,
}

impl Pauses {
    /// Returns pauses of this pace. `watch` says whether the children are to be watched.
    pub(crate) fn of(pace: Pace, watch: bool) -> Pauses {
        let mut pauses = Pauses {
            shortest: SECOND,
            longest: SECOND,
            looking: SECOND,
            next: SECOND,
            by_cost: false,
            stirred: false,
            passed: None,
            turn: None,
        };
        match pace {
            Pace::Second => {}
            Pace::Tenth => {
                pauses.shortest = SHORT;
                pauses.next = SHORT;
                pauses.passed = Some(0);
            }
            Pace::UpTo {
                hundredths,
                by_cost,
            } => {
                pauses.longest = hundredths.saturating_mul(HUNDREDTH);
                pauses.shortest = pauses.longest / 1_000;
                pauses.next = pauses.shortest;
                pauses.by_cost = by_cost;
                pauses.looking = pauses.longest;
            }
        }
        if watch {
            pauses.looking = pauses.longest.min(SECOND);
        }
        pauses
    }

    /// Records whether something happened.
    pub(crate) fn note(&mut self, stirred: bool) {
        self.stirred = self.stirred || stirred;
    }

    /// Records that a turn begins.
    pub(crate) fn begin_turn(&mut self, rt: &impl Clock) {
        self.turn = Instant::now(rt).ok();
    }

    /// Returns the microseconds since the turn began; 0 if the clock could not be read.
    fn turn_length(&self, rt: &impl Clock) -> u64 {
        let Some(began) = self.turn else {
            return 0;
        };
        match began.elapsed(rt) {
            Ok(passed) => u64::try_from(passed.as_micros()).unwrap_or(u64::MAX),
            Err(_) => 0,
        }
    }

    /// Returns the length of the next pause in microseconds, for this many children. If something happened in the
    /// turn, it is the shortest pause, or less if there are few children; otherwise it is twice the previous pause, or
    /// a tenth of the sum of the previous pauses, up to the longest pause. The longest pause is shorter unless the
    /// children are watched.
    pub(crate) fn next(&mut self, rt: &impl Clock, children: usize, is_watched: bool) -> u64 {
        let length = if self.stirred {
            self.shortest_over(children)
        } else if is_watched {
            self.next
        } else {
            self.next
                .min(self.longest_over(children, self.turn_length(rt)))
        };
        if let Some(passed) = self.passed {
            let passed = if self.stirred { 0 } else { passed };
            let passed = passed.saturating_add(length);
            self.passed = Some(passed);
            self.next = (passed / 10).max(self.shortest).min(self.longest);
        } else {
            self.next = length.saturating_mul(2).min(self.longest);
        }
        self.stirred = false;
        length
    }

    /// Returns the longest pause for this many children that are not watched, after a turn of this length.
    fn longest_over(&self, children: usize, turn: u64) -> u64 {
        if self.by_cost && children > 0 {
            turn.saturating_mul(REST_A_TURN).max(REST).min(self.looking)
        } else {
            self.looking
        }
    }

    /// Returns the shortest pause for this many children. Pauses that do not grow have a fixed length.
    fn shortest_over(&self, children: usize) -> u64 {
        if self.shortest < self.longest {
            let short = SHORT_A_CHILD.saturating_mul(children as u64).max(SHORT);
            self.shortest.min(short)
        } else {
            self.shortest
        }
    }
}

/// Returns whether a child was born, was found to have ended, or was sent a signal.
pub(crate) fn has_stirred(reply: &Reply) -> bool {
    matches!(
        reply,
        Reply::Now(Answer::Born(_) | Answer::Ended(_) | Answer::Hit)
    )
}

//! The positions of times in the drawing of a timeline.

ghost use Rattle.std.specs.Prelude.{◌≡◌};
ghost use Rattle.initview_timeline.specs.Frames.{left_of, place_of, scaled, span_of, width_of};

/// The minimum width of a bar, so that it is visible.
pub const BAR_LEAST: u64 = 2;

/// The first and last time of a drawing, in seconds, and its last position. The first position is 0.
#[derive(Clone, Copy)]
pub struct Frame {
    pub start: u64,
    pub end: u64,
    pub last: u64,
}

/// Returns `part` of `whole` scaled to `many` positions, rounded down.
fn scaled(part: u64, whole: u64, many: u64) -> u64
    ensures { result ≡ scaled part whole many }
{
    if whole == 0 {
        0
    } else {
        part.saturating_mul(many) / whole
    }
}

impl Frame {
    /// Returns the duration of the drawing, in seconds.
    pub fn span(self) -> u64
        ensures { result ≡ span_of self }
    {
        self.end.saturating_sub(self.start)
    }

    /// Returns the position of a time, from 0 to the last position.
    pub fn position(self, time: u64) -> u64
        ensures { result ≡ place_of self time }
    {
        scaled(time.saturating_sub(self.start), self.span(), self.last).min(self.last)
    }

    /// Returns the width of a bar, which is at least `BAR_LEAST`.
    pub fn width(self, from: u64, to: u64) -> u64
        ensures { result ≡ width_of self from to }
    {
        let width = self.position(to).saturating_sub(self.position(from));
        width.max(BAR_LEAST)
    }

    /// Returns the position at which a bar begins, so that it ends within the drawing.
    pub fn left(self, from: u64, to: u64) -> u64
        ensures { result ≡ left_of self from to }
    {
        let room = self.last.saturating_sub(self.width(from, to));
        self.position(from).min(room)
    }
}

//! A log that writes the text of a trace as it grows.

ghost use Rattle.std.specs.Prelude.{◌≡◌, OnOk, IfErr};
ghost use Rattle.std.specs.Io.KnownBytes.{Appends};
ghost use Rattle.trace_text.specs.Lines.{event_text};
ghost use Rattle.trace_log.specs.Faults.{Leaves};

use crate::faults::LogFault;
use crate::logs::{EndedLog, Log};
use program_io::write_text;
use std::alloc::{Allocator, Global};
use std::io::Write;
use std::marker::Model;
use trace_events::HappeningIn;

/// A log that writes the text of each happening immediately and keeps nothing in memory. If the writer is a file, the
/// file has the trace up to the last happening recorded.
///
/// If the writer fails, part of the text of the happening may have been written; if memory allocation fails, none of it
/// was written.
#[derive(Drop)]
pub struct StreamLog<W, A: Allocator = Global> {
    writer: W,
    alloc: A,
    failed: bool,
}

impl<W, A: Allocator> Model for StreamLog<W, A> {
    ghost use Rattle.trace_log.specs.Streams.{Stream};

    ghost Value = { Stream W };

    ghost view = { λ log. record { writer = log.writer; failed = log.failed } };
}

impl<W: Write, A: Allocator> StreamLog<W, A> {
    ghost use Rattle.std.specs.Prelude.{[], false, IfSome};
    ghost use Rattle.trace_log.specs.Streams.{stream_state};

    /// Creates a log that writes to `writer`, which must be empty. This does not allocate; `take` uses the allocator.
    pub fn new(alloc: A, writer: W) -> StreamLog<W, A>
        requires { IfSome (W.contents writer) (λ bytes. bytes ≡ []) }
        ensures value { result ≡ record { writer = writer; failed = false } }
        ensures nothing { IfSome (W.contents writer)
            (λ _. (stream_state W.contents result).taken []) }
    {
        StreamLog {
            writer,
            alloc,
            failed: false,
        }
    }

    /// Returns the writer. Its bytes are the text of the recorded happenings. If the log has failed, a possibly empty
    /// part of the text of one more happening follows.
    pub fn writer(&self) -> &W
        ensures { result.now ≡ self.now.writer }
    {
        &self.writer
    }
}

impl<W: Write, A: Allocator + Copy> Log for StreamLog<W, A> {
    ghost use Rattle.std.specs.Prelude.{◌≡◌, true, false, is_err, OnOk, OnErr, IfErr};
    ghost use Rattle.std.specs.Io.KnownBytes.{Appends};
    ghost use Rattle.trace_events.specs.Range.{is_in_range};
    ghost use Rattle.trace_text.specs.Lines.{event_text};
    ghost use Rattle.trace_log.specs.Logs.{AcceptsHappening, Stays};
    ghost use Rattle.trace_log.specs.Faults.{Leaves};
    ghost use Rattle.trace_log.specs.Streams.{stream_state};

    ghost state = { stream_state W.contents };

    /// Writes the text of a happening. Fails with `Device` if the writer failed or wrote no byte, and with `Memory` if
    /// memory allocation failed.
    fn take<B: Allocator>(&mut self, happening: &HappeningIn<B>) -> Result<(), LogFault>
        requires { self.old.failed ≡ false }
        ensures flag { self.new.failed ≡ is_err result }
        ensures ok { OnOk result (is_in_range happening.now ≡ true
            → AcceptsHappening (stream_state W.contents self.old) (stream_state W.contents self.new)
            happening.now) }
        ensures err { OnErr result (is_in_range happening.now ≡ true
            → Stays (stream_state W.contents self.old) (stream_state W.contents self.new)) }
        ensures text { OnOk result (Appends
            (W.contents self.old.writer) (W.contents self.new.writer) (event_text happening.now)) }
        ensures left { IfErr result (λ fault.
            Leaves fault (W.contents self.old.writer) (W.contents self.new.writer)
            (event_text happening.now)) }
    {
        let taken = write_happening(self.alloc, &mut self.writer, happening);
        self.failed = taken.is_err();
        taken
    }

    fn failed(&self) -> bool {
        self.failed
    }
}

impl<W: Write, A: Allocator + Copy> EndedLog for StreamLog<W, A> {
    ghost use Rattle.std.specs.Prelude.{not};
    ghost use Rattle.trace_log.specs.Streams.{KnowsText};

    type Left = W;

    ghost has_ended = { λ writer whole trace. KnowsText (not whole) trace (W.contents writer) };

    /// Returns the writer, which has the text of all recorded happenings.
    fn end(self) -> (W, bool) {
        let StreamLog {
            writer,
            alloc: _,
            failed,
        } = self;
        (writer, !failed)
    }
}

/// Writes the text of a happening, calling the writer as often as necessary.
fn write_happening<A: Allocator + Copy, B: Allocator, W: Write>(
    alloc: A,
    out: &mut W,
    happening: &HappeningIn<B>,
) -> Result<(), LogFault>
    ensures ok { OnOk result (Appends
        (W.contents out.old) (W.contents out.new) (event_text happening.now)) }
    ensures err { IfErr result (λ fault.
        Leaves fault (W.contents out.old) (W.contents out.new) (event_text happening.now)) }
{
    let text = trace_text::print_one(alloc, happening)?;
    write_text(out, &text)?;
    Ok(())
}

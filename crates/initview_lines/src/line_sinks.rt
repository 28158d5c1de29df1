//! Outputs for lines.

use crate::lines::Line;
use jiff::Error;
use std::alloc::Global;

/// The reason why not all lines were written.
#[derive(Clone, Copy)]
pub enum SinkFault {
    /// Out of memory.
    Memory,
    /// The output failed.
    Unwritten,
}

/// An output for lines. Contracts describe the lines written so far, if they are known, whether the reader of the
/// output is gone, and whether times are local.
pub trait LineSink {
    ghost use Rattle.std.specs.Prelude.{◌≡◌, List, OnOk, OnErr};
    ghost use Rattle.initview_lines.specs.declared.lines.Line.{Line};
    ghost use Rattle.initview_lines.specs.Outputs.{KnownOutput, WritesLines, WritesLinePrefix, WritesNothing, with_local_times};

    /// The output so far.
    ghost said: { Self → KnownOutput };

    /// Writes lines in order and flushes them. On failure, a prefix of them has been written.
    fn say(&mut self, alloc: Global, lines: Vec<Line>) -> Result<(), SinkFault>
        ensures ok { OnOk result (WritesLines (said self.old) (said self.new) lines.items) }
        ensures err { OnErr result (WritesLinePrefix (said self.old) (said self.new) lines.items) };

    /// Reports whether the reader of the output is gone.
    fn is_unread(&mut self) -> bool
        ensures unread { result ≡ (said self.new).unread }
        ensures same { WritesNothing (said self.old) (said self.new) };

    /// Sets the time zone for subsequent lines to the zone of the system. On failure, nothing changes.
    fn use_local_times(&mut self) -> Result<(), Error>
        ensures ok { OnOk result (said self.new ≡ with_local_times (said self.old)) }
        ensures err { OnErr result (WritesNothing (said self.old) (said self.new)) };
}

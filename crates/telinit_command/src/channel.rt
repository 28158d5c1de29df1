//! Appends a request block to the channel.

ghost use Rattle.std.specs.Prelude.{◌≡◌, ◌⊎◌, OnOk, OnErr};
ghost use Rattle.telinit_command.specs.Channels.{AreSame, AppendsToChannel, AppendsPrefixToChannel, IsWholeAt};
ghost use Rattle.telinit_command.specs.Notes.{ReportsChannel, Reading, ReportsCreation, ReportsReader};

use crate::channels::Channels;
use initctl_frame::BLOCK;
use program_io::{REQUEST, Reporter, reason_text};
use std::io;

/// The reason why a block was not appended.
#[derive(Drop)]
pub(crate) enum ChannelFault {
    /// The channel has this number of bytes, which is not a whole number of requests. Nothing was written.
    Torn(u64),
    /// The channel could not be opened or written.
    Device(io::Error),
}

impl From<io::Error> for ChannelFault {
    fn from(error: io::Error) -> ChannelFault {
        ChannelFault::Device(error)
    }
}

/// Appends the block to the channel at the path, and creates the channel if it does not exist. Before the block is
/// appended, the creation is reported on `err`. Only after that it checks whether an init reads the channel, and
/// reports if none does, so that the request does not wait for the check. If this fails, a prefix of the block may
/// have been appended.
pub(crate) fn append_block<C: Channels, E: Reporter>(
    channels: &mut C,
    path: &str,
    block: &[u8; BLOCK],
    err: &mut E,
) -> Result<(), ChannelFault>
    ensures told { OnOk result (ReportsChannel path.now (E.reports err.old) (E.reports err.new)) }
    ensures whole { OnOk result (IsWholeAt path.now (C.bytes_at channels.old)) }
    ensures gained { OnOk result (AppendsToChannel path.now block.now
        (C.bytes_at channels.old) (C.bytes_at channels.new)) }
    ensures refused { OnErr result (AreSame (C.bytes_at channels.old) (C.bytes_at channels.new)
        ⊎ AppendsPrefixToChannel path.now block.now (C.bytes_at channels.old)
        (C.bytes_at channels.new)) }
{
    let found = channels.open(path)?;
    if found.length % REQUEST as u64 != 0 {
        return Err(ChannelFault::Torn(found.length));
    }
    tell_made(path, found.was_made, err);
    channels.append(path, block)?;
    tell_reading(path, channels.is_read(path), err);
    Ok(())
}

/// Reports that the channel was created, if it was.
fn tell_made<E: Reporter>(path: &str, was_made: bool, err: &mut E)
    ensures { ReportsCreation path.now was_made (E.reports err.old) (E.reports err.new) }
{
    if was_made {
        err.report_texts(&["telinit: created ", path, "\n"]);
    }
}

/// Reports that no init reads the channel, or that this is not known.
fn tell_reading<E: Reporter>(path: &str, is_read: io::Result<bool>, err: &mut E)
    ensures { (reading : Reading)
        × ReportsReader path.now reading (E.reports err.old) (E.reports err.new) }
{
    match is_read {
        Ok(true) => {}
        Ok(false) => err.report_texts(&["telinit: no init is reading ", path, STANDS]),
        Err(error) => tell_unknown(path, reason_text(&error).as_str(), err),
    }
}

/// The message about a channel that no init reads, after its path.
const STANDS: &str = "; the request stays there until one does\n";

/// Reports that it is not known whether an init reads the channel.
fn tell_unknown<E: Reporter>(path: &str, reason: &str, err: &mut E)
    ensures { ReportsReader path.now (Reading.unknown reason.now)
        (E.reports err.old) (E.reports err.new) }
{
    err.report_texts(&[
        "telinit: cannot tell whether an init is reading ",
        path,
        ": ",
        reason,
        "\n",
    ]);
}

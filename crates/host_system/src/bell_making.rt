//! Creates the bell of a channel with mkfifo(1).

ghost use Rattle.host_system.specs.Asking.{RunsHelpers};

use crate::commands::{BoxedCommand, add_word, bare_command};
use crate::host_options::HostOptions;
use crate::systems::System;
use host_files::{Channel, OsChannelFile};
use host_lines::{HostLine, MessageSink};
use std::alloc::{AllocError, Allocator};
use std::io;
use std::io::Error;
use std::rt::Files;

/// Creates the channel's bell if the options ask for it and nothing exists at its path. A failure is reported.
pub(crate) fn make_bell<R: Files + MessageSink, S: System, A: Allocator + Copy>(
    rt: &R,
    system: &mut S,
    alloc: A,
    channel: &Channel<OsChannelFile, A>,
    options: &HostOptions,
)
    ensures { RunsHelpers (S.told system.old) (S.told system.new) }
{
    if !options.bell {
        return;
    }
    let Some(path) = channel.missing_bell(rt) else {
        return;
    };
    if let Err(error) = made_at(system, alloc, path) {
        rt.tell(&HostLine::NoBell {
            path,
            error: &error,
        });
    }
}

/// Creates a FIFO at the path that only the user of initd may open.
fn made_at<S: System, A: Allocator + Copy>(system: &mut S, alloc: A, path: &str) -> io::Result<()>
    ensures { RunsHelpers (S.told system.old) (S.told system.new) }
{
    let mut command = making_command(alloc, path)?;
    if system.run(&mut command)?.success() {
        Ok(())
    } else {
        Err(Error::other("mkfifo failed"))
    }
}

/// Returns the command that creates the FIFO.
fn making_command<A: Allocator + Copy>(
    alloc: A,
    path: &str,
) -> Result<BoxedCommand<A>, AllocError> {
    let mut command = bare_command(alloc, "mkfifo")?;
    for word in ["-m", "600", path] {
        add_word(&mut command, word)?;
    }
    Ok(command)
}

//! The helper that watches the children: it exits as soon as one of them ends, so that init need not look at them
//! until then.

use crate::commands::{BoxedCommand, add_word, shell_command};
use crate::launches::AT_ONCE;
use crate::terms::of_shell;
use std::alloc::Allocator;
use std::io;
use std::io::{Error, ErrorKind, PipeReader};
use std::os::fd::{AsRawFd, RawFd};
use std::process::{Child, Command, ExitStatus, OpenProcess, Processes, Stdio};
use std::rt::Files;

/// The script of the helper. It becomes waitpid(1) or, if there is none, perl(1), which waits in the same way: by
/// pidfd_open(2), whose number is 434 on every machine. Both take process numbers as arguments, and exit with status 0
/// when one of these processes ends. The first of these processes is init itself, so that the helper does not outlive
/// it. If perl cannot watch a process, its status is the error number plus `ERRORS`.
const HELPER: &str = "LC_ALL=C; export LC_ALL; \
    command -v waitpid >/dev/null && exec waitpid -c 1 \"$PPID\" \"$@\"; \
    command -v perl >/dev/null || exit 127; \
    exec perl -e '($fd = syscall(434, $_ + 0, 0)) < 0 && exit(64 + $!), vec($all, $fd, 1) = 1 for @ARGV; \
    select($all, undef, undef, undef)' \"$PPID\" \"$@\"";

/// The number that perl adds to an error number.
const ERRORS: i32 = 64;

/// The status of a shell that does not find a program.
const NOT_FOUND: i32 = 127;

/// Returns the command of the helper, without the numbers of the processes.
pub(crate) fn watch_command<A: Allocator + Copy>(alloc: A) -> io::Result<BoxedCommand<A>> {
    let mut command = shell_command(alloc, AT_ONCE, HELPER)?;
    add_word(&mut command, "sh")?;
    Ok(command)
}

/// Returns an error if the status shows that the helper exited for another reason than the end of a process.
pub(crate) fn watch_result(status: Option<ExitStatus>) -> io::Result<()> {
    match status.map(|status| status.code()) {
        Some(Some(0)) => Ok(()),
        Some(Some(NOT_FOUND)) => Err(Error::new(
            ErrorKind::NotFound,
            "waitpid and perl: not found in PATH",
        )),
        Some(Some(code)) if code > ERRORS => Err(Error::from_raw_os_error(code - ERRORS)),
        Some(None) => Err(Error::other("the helper was killed")),
        _ => Err(Error::other("the helper failed; its message is above")),
    }
}

/// The helper, if it is running, and the pipe to which its output goes. The pipe reaches its end when the helper
/// exits.
#[derive(Drop)]
pub struct Watcher<P: OpenProcess + Drop> {
    helper: Option<(Child<P>, PipeReader)>,
}

impl<P: OpenProcess + Drop> Watcher<P> {
    /// Returns a watcher without a helper.
    pub(crate) fn new() -> Watcher<P> {
        Watcher { helper: None }
    }

    /// Starts the helper by this command. It has no input, and writes nothing to its output.
    pub(crate) fn start<R: Processes<Started = P> + Files, A: Allocator + Copy>(
        &mut self,
        rt: &R,
        command: &mut Command<A>,
    ) -> io::Result<()> {
        let (reader, writer) = io::pipe(rt)?;
        command.stdin(Stdio::null());
        command.stdout(Stdio::from(writer));
        let helper = command.spawn(rt).map_err(of_shell)?;
        self.helper = Some((helper, reader));
        Ok(())
    }

    /// Returns the descriptor of the pipe, if there is a helper.
    pub(crate) fn descriptor(&self) -> Option<RawFd> {
        let (_, reader) = self.helper.as_ref()?;
        Some(reader.as_raw_fd())
    }

    /// Waits for the helper, which has exited or is about to exit, and returns its status.
    pub(crate) fn join(&mut self) -> Option<ExitStatus> {
        let (mut helper, _) = self.helper.take()?;
        helper.wait().ok()
    }

    /// Ends the helper, if there is one, and waits for it.
    pub(crate) fn end(&mut self) {
        let Some((mut helper, _)) = self.helper.take() else {
            return;
        };
        let _ = helper.kill();
        let _ = helper.wait();
    }
}

//! The helper that sends signals: TERM to children, and TERM and KILL to their process groups. One shell sends all
//! signals of a turn.

ghost use Rattle.host_system.specs.Asking.{RunsHelpers};

use crate::commands::{BoxedCommand, shell_command};
use crate::launches::AT_ONCE;
use crate::systems::System;
use init_words::SignalKind;
use program_io::write_text;
use std::alloc::Allocator;
use std::io;
use std::io::{Error, ErrorKind, Read};
use std::process::{Child, ExitStatus, OpenProcess, Processes, Stdio};

/// The script of the helper. For each line, it sends the signal to the process with the number. If the line has a
/// third word, it sends the signal to the process group with that number, or to the process if setsid(1) has not
/// created the group yet. It answers `0` if the signal was sent, `-` if there is no kill(1), and `1` otherwise.
const HELPER: &str = "while read -r signal number group; do \
    [ \"$group\" ] && kill \"-$signal\" \"-$number\" 2>/dev/null || kill \"-$signal\" \"$number\"; \
    case $? in 0) echo 0 ;; 127) echo - ;; *) echo 1 ;; esac; done";

/// Shell scripts that exit with status 0 if the shell finds kill(1), and, for the second one, setsid(1) too. Both exit
/// with status 2 if they cannot open a file: shells differ in their status for that, and one shell uses the status of
/// a command that is not found.
const FINDS_KILL: &str = "true >/dev/null || exit 2; command -v kill >/dev/null";

const FINDS_BOTH: &str =
    "true >/dev/null || exit 2; command -v kill >/dev/null && command -v setsid >/dev/null";

/// The shell that sends signals, if it was started since the last pause.
#[derive(Drop)]
pub struct TermSender<P: OpenProcess + Drop> {
    shell: Option<Child<P>>,
}

impl<P: OpenProcess + Drop> TermSender<P> {
    /// Returns a sender without a shell.
    pub(crate) fn new() -> TermSender<P> {
        TermSender { shell: None }
    }

    /// Sends TERM to the process with the number.
    pub(crate) fn send<R: Processes<Started = P>, A: Allocator + Copy>(
        &mut self,
        rt: &R,
        alloc: A,
        number: u32,
    ) -> io::Result<()> {
        let line = format!(in alloc; "TERM {number}\n")?;
        self.hand_over(rt, alloc, line.as_bytes())
    }

    /// Sends a signal to the process group with the number, or to the process if there is no such group.
    pub(crate) fn send_group<R: Processes<Started = P>, A: Allocator + Copy>(
        &mut self,
        rt: &R,
        alloc: A,
        number: u32,
        signal: SignalKind,
    ) -> io::Result<()> {
        let name = name_of(signal);
        let line = format!(in alloc; "{name} {number} group\n")?;
        self.hand_over(rt, alloc, line.as_bytes())
    }

    /// Passes a line to the shell. If the shell fails, it is ended, and another one is started the next time.
    fn hand_over<R: Processes<Started = P>, A: Allocator + Copy>(
        &mut self,
        rt: &R,
        alloc: A,
        line: &[u8],
    ) -> io::Result<()> {
        if self.shell.is_none() {
            let mut command = shell_command(alloc, AT_ONCE, HELPER)?;
            command.stdin(Stdio::piped());
            command.stdout(Stdio::piped());
            self.shell = Some(started(rt, command)?);
        }
        let Some(shell) = &mut self.shell else {
            return Err(Error::from(ErrorKind::BrokenPipe));
        };
        match answer_of(shell, line) {
            Ok(b'0') => Ok(()),
            Ok(b'-') => Err(no_kill()),
            Ok(_) => Err(Error::other("kill failed")),
            Err(error) => Err(self.failed(error)),
        }
    }

    /// Ends a shell that failed with this error, and returns why it failed, if it had ended.
    fn failed(&mut self, error: Error) -> Error {
        match self.end() {
            Some(status) if status.code().is_none() => {
                Error::other("the shell that sends it was killed")
            }
            Some(_) if error.kind() == ErrorKind::UnexpectedEof => {
                Error::other("the shell that sends it ended")
            }
            _ => error,
        }
    }

    /// Ends the shell and waits for it.
    pub(crate) fn end(&mut self) -> Option<ExitStatus> {
        self.shell.take()?.wait().ok()
    }
}

/// Returns an error if no process can be sent TERM, or, with `groups`, started in a session of its own, because there
/// is no `sh`, or it finds no `kill` or no `setsid`.
pub(crate) fn check_sending<S: System, A: Allocator + Copy>(
    system: &mut S,
    alloc: A,
    groups: bool,
) -> io::Result<()>
    ensures { RunsHelpers (S.told system.old) (S.told system.new) }
{
    let finds = if groups { FINDS_BOTH } else { FINDS_KILL };
    let mut shell = shell_command(alloc, AT_ONCE, finds)?;
    match system.run(&mut shell) {
        Ok(status) if status.success() => Ok(()),
        Ok(status) if status.code() == Some(2) => Err(Error::other("sh failed: see ulimit -n")),
        Ok(_) if groups => Err(Error::new(
            ErrorKind::NotFound,
            "kill or setsid: not found in PATH",
        )),
        Ok(_) => Err(no_kill()),
        Err(error) => Err(of_shell(error)),
    }
}

/// Starts a shell.
fn started<R: Processes, A: Allocator + Copy>(
    rt: &R,
    mut command: BoxedCommand<A>,
) -> io::Result<Child<R::Started>> {
    command.spawn(rt).map_err(of_shell)
}

/// Returns why a shell was not started.
pub(crate) fn of_shell(error: Error) -> Error {
    if error.kind() == ErrorKind::NotFound {
        Error::new(ErrorKind::NotFound, "sh: not found in PATH")
    } else {
        error
    }
}

fn no_kill() -> Error {
    Error::new(ErrorKind::NotFound, "kill: not found in PATH")
}

/// Returns the name of a signal (kill(1)).
fn name_of(signal: SignalKind) -> &'static str {
    match signal {
        SignalKind::Term => "TERM",
        SignalKind::Kill => "KILL",
    }
}

/// Passes the line to the shell, and returns its answer.
fn answer_of<P: OpenProcess>(shell: &mut Child<P>, line: &[u8]) -> io::Result<u8> {
    let Some(input) = &mut shell.stdin else {
        return Err(Error::from(ErrorKind::BrokenPipe));
    };
    write_text(input, line)?;
    let Some(output) = &mut shell.stdout else {
        return Err(Error::from(ErrorKind::BrokenPipe));
    };
    let mut answer = [0; 2];
    output.read_exact(&mut answer)?;
    Ok(answer[0])
}

//! The commands in front of a child's program: setsid(1), and a shell that waits.

ghost use Rattle.std.specs.Prelude.{◌≡◌, ◌∷◌, [], codes, decimal, IfOk};
ghost use Rattle.host_system.specs.Commands.{in_session, launched, words_in};

use crate::commands::{BoxedCommand, add_word, bare_command};
use std::alloc::{AllocError, Allocator};

/// How a program is started.
#[derive(Clone, Copy)]
pub(crate) struct Launch {
    /// Whether it is started in a session of its own.
    pub(crate) groups: bool,
    /// The number of seconds after which it is executed; 0 means at once.
    pub(crate) delay: u16,
}

/// A program with nothing in front of it.
pub(crate) const AT_ONCE: Launch = Launch {
    groups: false,
    delay: 0,
};

/// The script of the shell that waits for the number of seconds in its first argument, and then becomes the program
/// that the other arguments start. TERM ends it at once: it kills its sleep(1), waits for that to end, and then ends
/// by TERM. KILL is used because a shell that was forked, and is not sleep(1) yet, would ignore TERM. The program gets
/// the standard input of the shell, and ignores the signals that the shell was started with as ignored.
const WAITER: &str = "trap '{ kill -KILL $!; wait; } 2>/dev/null; trap - TERM; kill $$' TERM; \
    sleep \"$1\" & wait; trap - TERM; shift; exec \"$@\"";

/// Returns the command of a program without arguments, with the commands in front of it.
pub(crate) fn first_command<A: Allocator + Copy>(
    alloc: A,
    launch: Launch,
    program: &str,
) -> Result<BoxedCommand<A>, AllocError>
    ensures { IfOk result (λ command.
        words_in command.value ≡ launched launch.groups launch.delay (program.now ∷ [])) }
{
    if launch.delay == 0 {
        return session_command(alloc, launch.groups, program);
    }
    let mut command = session_command(alloc, launch.groups, "sh")?;
    add_word(&mut command, "-c")?;
    add_word(&mut command, WAITER)?;
    add_word(&mut command, "sh")?;
    let delay = launch.delay;
    let seconds = format!(in alloc; "{delay}")?;
    add_word(&mut command, seconds.as_str())?;
    add_word(&mut command, program)?;
    Ok(command)
}

/// Returns the command of a program without arguments, in a session of its own if children have groups.
fn session_command<A: Allocator + Copy>(
    alloc: A,
    groups: bool,
    program: &str,
) -> Result<BoxedCommand<A>, AllocError>
    ensures { IfOk result (λ command.
        words_in command.value ≡ in_session groups (program.now ∷ [])) }
{
    if !groups {
        return bare_command(alloc, program);
    }
    let mut command = bare_command(alloc, "setsid")?;
    add_word(&mut command, "--")?;
    add_word(&mut command, program)?;
    Ok(command)
}

//! Checks the ignored signals, which a run of `rc` inherits from its parent.

ghost use Rattle.std.specs.Prelude.{◌≡◌, false, map, string_bytes, IfNone, IfSome, IsSome};
ghost use Rattle.program_io.specs.Reports.{AppendsReport};
ghost use Rattle.rc_command.specs.Endings.{ParsedArgumentsSatisfy};

use crate::command::read_words;
use host_system::ignores_children;
use program_io::{DEVICE_FAULT, Reporter};
use std::alloc::Global;
use std::process::Processes;
use std::rt::Files;

/// The message if SIGCHLD is ignored.
const UNWAITED: &str =
    "rc: SIGCHLD is ignored, so no script can be waited for; nothing was run: start rc with env \
    --default-signal=CHLD rc ..\n";

/// Rejects a command line that runs scripts if SIGCHLD is ignored, and returns the exit status. The system then reaps
/// each script itself (wait(2)), so `rc` could wait for none.
pub fn refuse_unwaited<R: Files + Processes, E: Reporter>(
    rt: &R,
    alloc: Global,
    words: &[String],
    err: &mut E,
) -> Option<u8>
    ensures status { IfSome result (λ status. status ≡ DEVICE_FAULT) }
    ensures runs { IsSome result
        → ParsedArgumentsSatisfy (map string_bytes words.now) (λ asked. asked.options.dry ≡ false) }
    ensures report { IsSome result
        → AppendsReport (E.reports err.old) (E.reports err.new) UNWAITED.now }
    ensures silent { IfNone result (err.new ≡ err.old) }
{
    let Ok(arguments) = read_words(alloc, words) else {
        return None;
    };
    if arguments.options.dry || !ignores_children(rt, alloc) {
        return None;
    }
    err.report(UNWAITED.as_bytes());
    Some(DEVICE_FAULT)
}

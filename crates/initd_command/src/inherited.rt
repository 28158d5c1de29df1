//! Reports the ignored signals that a run inherits from the process that started it, and that its children therefore
//! ignore, too.

ghost use Rattle.std.specs.Prelude.{IfErr};
ghost use Rattle.initd_command.specs.Words.{KnownTexts, RunArguments};
ghost use Rattle.initd_command.specs.Services.{IsRunObstacle};

use crate::run::Obstacle;
use host_system::{ignored_signals, ignores_children};
use std::alloc::Global;
use std::process::Processes;
use std::rt::Files;

/// The bits of signals in the masks of ignored signals (signal(7)).
const HUP: u64 = 0x1;

const INT: u64 = 0x2;

const QUIT: u64 = 0x4;

const TERM: u64 = 0x4000;

/// Rejects a run that cannot wait for children, because CHLD is ignored and the system therefore reaps each child
/// itself (wait(2)).
pub(crate) fn refuse_unwaited<R: Files + Processes>(rt: &R, alloc: Global) -> Result<(), Obstacle>
    ensures { (text_at : KnownTexts) (service : RunArguments)
        → IfErr result (IsRunObstacle text_at service) }
{
    if ignores_children(rt, alloc) {
        return Err(Obstacle::Unwaited);
    }
    Ok(())
}

/// Reports which of the signals that normally stop a process every child ignores because initd ignores them.
pub(crate) fn tell_ignored<R: Files + Eprint>(rt: &R, alloc: Global) {
    let ignored = told_of(ignored_signals(rt, alloc).unwrap_or(0));
    let hup = named(ignored, HUP, " HUP");
    let int = named(ignored, INT, " INT");
    let term = named(ignored, TERM, " TERM");
    if ignored != 0 {
        let _ = eprintln!(rt;
            "initd: every child ignores{hup}{int}{term}, because initd does; start initd with env --default-signal"
        );
    }
}

/// Returns the ignored signals that are reported. INT is not reported if QUIT is ignored, too, as it is for each
/// background job of a script.
fn told_of(ignored: u64) -> u64 {
    if ignored & QUIT != 0 {
        ignored & (HUP | TERM)
    } else {
        ignored & (HUP | INT | TERM)
    }
}

/// Returns the name of the signal if it is ignored, otherwise an empty text.
fn named(ignored: u64, signal: u64, name: &'static str) -> &'static str {
    if ignored & signal != 0 { name } else { "" }
}

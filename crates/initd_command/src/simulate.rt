//! Carries out `initd simulate`, which runs init over a script.

ghost use Rattle.std.specs.Prelude.{◌≡◌};
ghost use Rattle.initd_command.specs.Words.{simulation_of, scenario};
ghost use Rattle.initd_command.specs.Endings.{Ending, Reports, status_of};
ghost use Rattle.initd_command.specs.Runs.{EndsSimulate, EndsSimulation};

use crate::reports::{report_cannot, report_fault};
use init_words::Level;
use initd_options::SimulateWords;
use program_io::{DONE, Reporter, Texts};
use simulator::{SimFault, Untold, simulate};
use std::alloc::Global;
use std::io::Write;

/// Reads the two files, the inittab first, and runs init over them.
pub(crate) fn simulate_files<T: Texts, W: Write, E: Reporter>(
    texts: &T,
    alloc: Global,
    options: &SimulateWords,
    out: &mut W,
    err: &mut E,
) -> u8
    ensures { (ending : Ending) × (result ≡ status_of ending)
        × EndsSimulate (T.text_at texts.now) (simulation_of options.now) ending
        (W.contents out.old) (W.contents out.new)
        × Reports ending (E.reports err.old) (E.reports err.new) }
{
    let table = options.table.as_str();
    let inittab = match texts.read(alloc, table) {
        Ok(inittab) => inittab,
        Err(error) => return report_cannot(alloc, "read", table, &error, err),
    };
    let path = options.script.as_str();
    match texts.read(alloc, path) {
        Ok(script) => simulate_texts(alloc, &inittab, options.level, &script, out, err),
        Err(error) => report_cannot(alloc, "read", path, &error, err),
    }
}

/// Runs init over the texts of an inittab and a script, flushes the output, reports a fault, and returns the exit
/// status.
pub fn simulate_texts<W: Write, E: Reporter>(
    alloc: Global,
    inittab: &[u8],
    level: Option<Level>,
    script: &[u8],
    out: &mut W,
    err: &mut E,
) -> u8
    ensures { (ending : Ending) × (result ≡ status_of ending)
        × EndsSimulation (scenario level inittab.now script.now) ending (W.contents out.old)
        (W.contents out.new)
        × Reports ending (E.reports err.old) (E.reports err.new) }
{
    let ended = simulate::<Global, W, Untold>(alloc, inittab, level, script, out);
    if out.flush().is_err() {
        return report_fault(alloc, script, &SimFault::Write, err);
    }
    match ended {
        Ok(()) => DONE,
        Err(fault) => report_fault(alloc, script, &fault, err),
    }
}

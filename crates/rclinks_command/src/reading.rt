//! Reads all files of a command line, and reports those that can't be read.

ghost use Rattle.std.specs.Prelude.{◌≡◌, ◌&&◌, [], false, not, map, IfOk, OnOk};
ghost use Rattle.rclinks_command.specs.Command.{keeps_going};
ghost use Rattle.rclinks_command.specs.Reading.{ReadsOne, ReadsTo, has_faults};
ghost use Rattle.rclinks_command.specs.Reports.{TellsFiles, TellsOne};
ghost use Rattle.rclinks_command.specs.LineOptions.{line_options};

use crate::files::{FileFault, script_of};
use crate::line::Line;
use crate::remarks::odd_header;
use crate::report::add_warnings;
use init_words::Memory;
use program_io::Texts;
use rc_links::Script;
use std::alloc::Global;

/// The scripts in the files, and the report about the files and the scripts.
#[derive(Drop)]
pub(crate) struct Reading<'w> {
    /// The scripts, except the omitted ones.
    pub(crate) scripts: Vec<Script>,
    /// The path of each script.
    pub(crate) paths: Vec<&'w str>,
    /// The scripts that are omitted because there is no plan with them.
    pub(crate) outs: Vec<Script>,
    /// The report.
    pub(crate) report: Vec<u8>,
}

impl<'w> Reading<'w> {
    /// Returns the path of the script at a position.
    pub(crate) fn path_at(&self, position: usize) -> &'w str {
        self.paths.as_slice().get(position).copied().unwrap_or("")
    }
}

/// Reads the script at a path. Reports a file that is not a script.
fn read_one<'w, T: Texts>(
    texts: &T,
    alloc: Global,
    path: &'w str,
    skips: bool,
    reading: &mut Reading<'w>,
    faults: &mut Vec<FileFault>,
) -> Result<(), Memory>
    ensures read { OnOk result (ReadsOne (T.text_at texts.now) path.now reading.old.scripts.items
        reading.new.scripts.items faults.old.items faults.new.items) }
    ensures told { OnOk result (TellsOne (T.text_at texts.now) path.now faults.old.items
        faults.new.items reading.old.report.items reading.new.report.items) }
{
    match script_of(texts, alloc, path, skips, &mut reading.report) {
        Ok(script) => {
            let odd = odd_header(alloc, path, script.header());
            add_warnings(&mut reading.report, odd.as_slice())?;
            reading.scripts.push(script)?;
            reading.paths.push(path)?;
        }
        Err(FileFault::Memory) => return Err(Memory),
        Err(fault) => faults.push(fault)?,
    }
    Ok(())
}

/// Returns whether a fault ends the reading of the files.
fn is_over(keeps_going: bool, faults: &[FileFault]) -> bool
    ensures { result ≡ (not keeps_going && has_faults faults.now) }
{
    !keeps_going && matches!(faults, [_, ..])
}

/// Reads the scripts of a command line's files, in order, reports the files that are not scripts, and returns their
/// faults. Unless the run continues after a fault, nothing is read after the first one.
pub(crate) fn read_files<'w, T: Texts>(
    texts: &T,
    alloc: Global,
    line: &Line<'_, 'w>,
    reading: &mut Reading<'w>,
) -> Result<Vec<FileFault>, Memory>
    requires { reading.old.scripts.items ≡ [] }
    ensures read { IfOk result (λ faults. ReadsTo (keeps_going (line_options line.now))
        (T.text_at texts.now) (map (λ file. file.now) line.now.files.now)
        reading.new.scripts.items faults.items) }
    ensures told { IfOk result (λ faults. keeps_going (line_options line.now) ≡ false
        → TellsFiles (T.text_at texts.now) (map (λ file. file.now) line.now.files.now)
        faults.items reading.old.report.items reading.new.report.items) }
{
    let mut faults = Vec::new(alloc);
    let keeps_going = line.keeps_going();
    for path in line.files {
        read_one(texts, alloc, path, line.skips, reading, &mut faults)?;
        let over = is_over(keeps_going, faults.as_slice());
        if over {
            return Ok(faults);
        }
    }
    Ok(faults)
}

//! The version of the programs, and the line that prints it.

ghost use Rattle.std.specs.Prelude.{◌≡◌, ◌⊎◌, codes, true};
ghost use Rattle.std.specs.Io.KnownBytes.{Appends};
ghost use Rattle.program_io.specs.Reports.{AppendsReport, LastReportNonempty, fault_text};
ghost use Rattle.program_io.specs.Writing.{AppendsPrefix};
ghost use Rattle.command_words.specs.VersionLine.{PrintsVersion, version_line};

use program_io::{DEVICE_FAULT, DONE, Reporter, report_fault, write_texts};
use std::io::Write;

/// The version of the programs.
pub const VERSION: &str = "0.1.0";

/// The toolchain that proves and builds the programs: its name in `rt version`, without the letter of its edition.
pub const KIT: &str = "rattle-kit-13";

/// Writes the line `NAME VERSION (KIT)` and flushes the writer, and returns whether both succeeded.
pub fn write_version<W: Write>(name: &str, out: &mut W) -> bool
    ensures done { result ≡ true
        → Appends (W.contents out.old) (W.contents out.new) (version_line name.now) }
    ensures part { AppendsPrefix (W.contents out.old) (W.contents out.new)
        (version_line name.now) }
{
    write_texts(out, &[name, " ", VERSION, " (", KIT, ")\n"]).is_ok() && out.flush().is_ok()
}

/// Writes the version line to `out` and returns the exit status: 0, or 4 if the line could not be written in full,
/// which is reported on `err`.
pub fn print_version<W: Write, E: Reporter>(name: &str, out: &mut W, err: &mut E) -> u8
    ensures statuses { (result ≡ DONE) ⊎ (result ≡ DEVICE_FAULT) }
    ensures version { PrintsVersion name.now result (W.contents out.old) (W.contents out.new) }
    ensures silent { result ≡ DONE → err.new ≡ err.old }
    ensures reported { result ≡ DEVICE_FAULT
        → AppendsReport (E.reports err.old) (E.reports err.new)
        (fault_text name.now (codes "cannot write")) }
    ensures spoken { result ≡ DEVICE_FAULT → LastReportNonempty (E.reports err.new) }
{
    if write_version(name, out) {
        return DONE;
    }
    report_fault(name, "cannot write", err)
}

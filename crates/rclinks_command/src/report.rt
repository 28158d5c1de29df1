//! The report of a run, which consists of lines: warnings, and the reason why the run is refused.
//!
//! `tools/pages.d/rclinks` tests this module. The text after the first word of a line comes from `remarks` and
//! `telling`.

ghost use Rattle.std.specs.Prelude.{◌≡◌, ◌++◌, OnOk};
ghost use Rattle.rclinks_command.specs.Reports.{TellsLines, ReportsReason, ReportsWarning, line_of};

use init_words::Memory;
use text_lines::next_line;

/// The reason why a run does nothing.
#[derive(Clone, Copy)]
pub(crate) enum Refusal {
    /// A file, the scripts or the name of a link is rejected. The report says why.
    Refused,
    /// A file can't be read, or a folder can't be listed. The report says why.
    Failed,
    /// Out of memory.
    Memory,
}

impl From<Memory> for Refusal {
    ghost use Rattle.std.specs.Prelude.{◌≡◌};
    ghost use Rattle.rclinks_command.specs.declared.report.Refusal.TheVariants.{Memory as NoRoom};

    ghost from_gives = { λ _ refusal. refusal ≡ NoRoom };

    fn from(_error: Memory) -> Refusal {
        Refusal::Memory
    }
}

/// Adds a line with the program's name, a word, and the text after it.
fn add_line(report: &mut Vec<u8>, word: &str, rest: &[u8]) -> Result<(), Memory>
    ensures { OnOk result (report.new.items ≡ report.old.items ++ line_of word.now rest.now) }
{
    report.extend_from_slice(b"rclinks: ")?;
    report.extend_from_slice(word.as_bytes())?;
    report.extend_from_slice(rest)?;
    report.push(b'\n')?;
    Ok(())
}

/// Adds each of these lines with a word before it.
pub(crate) fn add_lines(report: &mut Vec<u8>, word: &str, lines: &[u8]) -> Result<(), Memory>
    ensures { OnOk result (TellsLines word.now report.old.items report.new.items) }
{
    let mut rest = lines;
    while let Some((line, more)) = next_line(rest) {
        add_line(report, word, line)?;
        rest = more;
    }
    Ok(())
}

/// Adds these lines as warnings.
pub(crate) fn add_warnings(report: &mut Vec<u8>, odd: &[u8]) -> Result<(), Memory>
    ensures { OnOk result (ReportsWarning report.old.items report.new.items) }
{
    add_lines(report, "warning: ", odd)
}

/// Adds the line that says why a run is refused, and the lines that give details.
pub(crate) fn add_why(
    report: &mut Vec<u8>,
    word: &str,
    rest: &str,
    more: &[u8],
) -> Result<(), Memory>
    ensures { OnOk result
        (ReportsReason word.now rest.now report.old.items report.new.items) }
{
    add_line(report, word, rest.as_bytes())?;
    add_lines(report, "", more)
}

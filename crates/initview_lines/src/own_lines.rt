//! The lines of an inittab's files that have a given id.

ghost use Rattle.std.specs.Prelude.{◌≡◌, ◌++◌, ◌↔◌, option_copied, IfOk, OnOk, IsErrOf};
ghost use Rattle.text_lines.specs.Lines.{lines_of};
ghost use Rattle.init_words.specs.Parts.{texts_of};
ghost use Rattle.inittab_text.specs.Parts.{AreTooLong, AreTooMany, faults_of_parts};
ghost use Rattle.initview_lines.specs.IdLines.{fault_at, id_lines, id_written, is_fault_at, line_told, lines_by, lines_from, own_line, own_lines};

use crate::lines::{FileLine, Line};
use crate::lint::{add_note, fault_line, file_line};
use crate::texts::Bytes;
use init_words::{Id, Part};
use inittab_text::{PartFault, TableFault, read_parts};
use std::alloc::{AllocError, Global};
use text_lines::{cut, first_line, without_blanks};

/// Returns the id of a line, which is the text before its first colon.
fn id_written(line: &[u8]) -> &[u8]
    ensures { result.now ≡ id_written line.now }
{
    let text = without_blanks(line);
    match cut(b':', text) {
        Some((id, _)) => id,
        None => text,
    }
}

fn is_fault_at(part: usize, number: usize, fault: &PartFault) -> bool
    ensures { result ≡ is_fault_at part number fault.now }
{
    fault.part as usize == part && fault.line as usize == number
}

/// Returns the fault that the reader found in a line.
fn fault_at(faults: &[PartFault], part: usize, number: usize) -> Option<&PartFault>
    ensures { option_copied result ≡ fault_at faults.now part number }
{
    faults
        .iter()
        .find(|fault| is_fault_at(part, number, *fault))
}

/// Returns the message about a line: the reason why init ignores it, or the line itself.
fn line_told(
    alloc: Global,
    file: &Part,
    number: usize,
    line: &[u8],
    fault: Option<&PartFault>,
) -> Result<Line, AllocError>
    ensures { IfOk result (λ told. told
        ≡ line_told file.now number line.now (option_copied fault.entry)) }
{
    match fault {
        Some(fault) => fault_line(alloc, Some(file), fault),
        None => {
            let text = Bytes::copy_of(alloc, line)?;
            file_line(alloc, Some(file), FileLine::Kept(number, text))
        }
    }
}

/// Adds the message about a line, if it has the id.
fn add_own(
    lines: &mut Vec<Line>,
    alloc: Global,
    id: &Id,
    faults: &[PartFault],
    part: usize,
    file: &Part,
    number: usize,
    line: &[u8],
) -> Result<(), AllocError>
    ensures { OnOk result (lines.new.items
        ≡ lines.old.items ++ own_line id.now faults.now part file.now number line.now) }
{
    if id_written(line) == id.as_bytes() {
        let fault = fault_at(faults, part, number);
        lines.push(line_told(alloc, file, number, line, fault)?)?;
    }
    Ok(())
}

/// Adds the messages about the lines of a file.
fn add_file(
    lines: &mut Vec<Line>,
    alloc: Global,
    id: &Id,
    faults: &[PartFault],
    part: usize,
    file: &Part,
) -> Result<(), AllocError>
    ensures { OnOk result (lines.new.items
        ≡ lines.old.items
        ++ own_lines id.now faults.now part file.now 1 (lines_of file.now.bytes)) }
{
    let mut rest = file.bytes.as_slice();
    let mut number = 0;
    while !rest.is_empty() {
        let (line, more) = first_line(rest);
        number += 1;
        add_own(lines, alloc, id, faults, part, file, number, line)?;
        rest = more;
    }
    Ok(())
}

/// Adds the messages about the lines of all files.
fn add_files(
    lines: &mut Vec<Line>,
    alloc: Global,
    id: &Id,
    faults: &[PartFault],
    files: &[Part],
) -> Result<(), AllocError>
    ensures { OnOk result (lines.new.items
        ≡ lines.old.items ++ lines_from id.now faults.now 0 files.now) }
{
    let mut rest = files;
    let mut number = 0;
    while let Some((file, others)) = rest.split_first() {
        add_file(lines, alloc, id, faults, number, file)?;
        number += 1;
        rest = others;
    }
    Ok(())
}

/// Returns the messages about the lines of the id, given the faults that the reader found.
fn lines_by(
    alloc: Global,
    files: &[Part],
    faults: &[PartFault],
    id: &Id,
) -> Result<Vec<Line>, AllocError>
    ensures { IfOk result (λ lines. lines.items ≡ lines_by id.now faults.now files.now) }
{
    let mut lines = Vec::new(alloc);
    add_files(&mut lines, alloc, id, faults, files)?;
    let none = lines.is_empty();
    add_note(&mut lines, alloc, files, none, FileLine::NoLine(*id))?;
    Ok(lines)
}

/// Reads an inittab(5) of several files, as `read_parts` does, and returns a message about each line that has the id:
/// the reason why init ignores it, or the line itself if its entry is in the table. If no line has the id, the only
/// message says so. Fails if there are more than 256 files, or more than 1,048,576 bytes in total.
pub fn id_lines(alloc: Global, files: &[Part], id: &Id) -> Result<Vec<Line>, TableFault>
    ensures told { IfOk result (λ lines. lines.items ≡ id_lines id.now files.now) }
    ensures parts { IsErrOf result TableFault.Parts ↔ AreTooMany (texts_of files.now) }
    ensures too_long { IsErrOf result TableFault.TooLong ↔ AreTooLong (texts_of files.now) }
{
    let (_table, faults) = read_parts(alloc, files)?;
    match lines_by(alloc, files, &faults, id) {
        Ok(lines) => Ok(lines),
        Err(_) => Err(TableFault::Memory),
    }
}

//! Messages about faulty lines of inittab.

ghost use Rattle.std.specs.Prelude.{◌≡◌, ◌++◌, string_bytes, IfOk, OnOk};
ghost use Rattle.host_messages.specs.LineFaults.{fault_line, faults_text, line_text, place_text};

use init_words::Part;
use inittab_text::{LineKind, PartFault};
use std::alloc::{AllocError, Allocator};

/// Returns the lines that report the faulty lines of an inittab's parts, one per fault. Each line names the part,
/// except for the first part.
pub fn faults_text<A: Allocator + Copy, B: Allocator>(
    alloc: A,
    parts: &[Part<B>],
    faults: &[PartFault],
) -> Result<Vec<u8, A>, AllocError>
    ensures { IfOk result (λ text. text.items ≡ faults_text parts.now faults.now) }
{
    let mut text = Vec::new(alloc);
    for fault in faults {
        add_fault(alloc, &mut text, parts, fault)?;
    }
    Ok(text)
}

fn add_fault<A: Allocator + Copy, B: Allocator>(
    alloc: A,
    text: &mut Vec<u8, A>,
    parts: &[Part<B>],
    fault: &PartFault,
) -> Result<(), AllocError>
    ensures { OnOk result (text.new.items ≡ text.old.items ++ fault_line parts.now fault.now) }
{
    let line = line_text(alloc, fault.line, fault.kind)?;
    text.extend_from_slice(b"initd: inittab ")?;
    add_place(text, parts, fault.part)?;
    text.extend_from_slice(line.as_bytes())?;
    Ok(())
}

/// Returns the text that gives the number of a line and the check that the line fails.
fn line_text<A: Allocator + Copy>(
    alloc: A,
    line: u32,
    kind: LineKind,
) -> Result<String<A>, AllocError>
    ensures { IfOk result (λ text. string_bytes text ≡ line_text line kind) }
{
    format!(in alloc; "line {line}: {kind}\n")
}

/// Appends the name of the part with this number, and a blank; nothing for the first part.
fn add_place<A: Allocator, B: Allocator>(
    text: &mut Vec<u8, A>,
    parts: &[Part<B>],
    number: u32,
) -> Result<(), AllocError>
    ensures { OnOk result (text.new.items ≡ text.old.items ++ place_text parts.now number) }
{
    if number == 0 {
        return Ok(());
    }
    if let Some(part) = parts.get(number as usize) {
        text.extend_from_slice(part.name.as_bytes())?;
        text.push(b' ')?;
    }
    Ok(())
}

/// Reports each part that begins with a byte order mark, and what to do about it, because the line about the fault
/// does not mention the mark.
pub(crate) fn tell_marked<B: Allocator>(rt: &impl Eprint, parts: &[Part<B>]) {
    for part in parts {
        if part.bytes.starts_with(b"\xef\xbb\xbf") {
            let name = part.name.as_str();
            let _ = eprintln!(rt;
                "initd: {name} line 1 begins with a byte order mark; save the file without it"
            );
        }
    }
}

/// Reports that the inittab is longer than a table can be.
pub(crate) fn tell_too_long(rt: &impl Eprint, path: &str) {
    let _ = eprintln!(rt;
        "initd: {path} is longer than 1048576 bytes; shorten it and run telinit q"
    );
}

/// Reports that the inittab and its folder have more files than a table can have.
pub(crate) fn tell_too_many(rt: &impl Eprint, path: &str) {
    let _ = eprintln!(rt;
        "initd: {path} and its folder have more than 256 files; merge some and run telinit q"
    );
}

/// Reports that the inittab is rejected because it has faulty lines.
pub(crate) fn tell_refused(rt: &impl Eprint, path: &str) {
    let _ = eprintln!(rt;
        "initd: {path} has faulty lines, so the previous table stays in force (--strict); fix them and run telinit q"
    );
}

//! The scripts and facility files at paths.

ghost use Rattle.std.specs.Prelude.{◌≡◌, true, false, None, Err, IfOk, IfErr, IfSome, OnOk, codes};
ghost use Rattle.lsb_header.specs.Headers.{frame_fault};
ghost use Rattle.rc_links.specs.Names.{is_name};
ghost use Rattle.rclinks_command.specs.Files.{IsNoScript, IsNotRead, IsScriptAt, IsScriptOf, file_status, last_part, refusal_of};
ghost use Rattle.rclinks_command.specs.Refusals.{refusal_status};
ghost use Rattle.rclinks_command.specs.Reports.{ReportsWhy, ReportsReason, ReportsWarning};

use crate::remarks::{behind_end, odd_lines};
use crate::report::{Refusal, add_warnings, add_why};
use init_words::Memory;
use lsb_header::{HeaderFault, second_keyword_line};
use program_io::{DEVICE_FAULT, REFUSED, Reason, Texts};
use rc_links::{Script, is_name};
use std::alloc::{AllocError, Global};
use std::io::{ErrorKind, Write};
use std::{fmt, io};
use thiserror::Error;

/// The reason why a file is not a script.
#[derive(Clone, Copy, Debug, Error)]
pub enum FileFault {
    /// It can't be read.
    #[error("{reason}", reason = Reason(.0))]
    Unread(io::Error),
    /// Its name is not allowed in a link.
    #[error("the name of a script may contain only A-Z a-z 0-9 . _ -")]
    Name,
    /// Its header is rejected. The number of the line with the fault is given if the fault itself does not contain it.
    #[error("{line}{0}", line = LineWords(*.1))]
    Header(HeaderFault, Option<usize>),
    /// Out of memory.
    #[error("out of memory")]
    Memory,
}

/// The number of a line, before the message about it.
#[derive(Clone, Copy)]
struct LineWords(Option<usize>);

impl fmt::Display for LineWords {
    fn fmt<W: fmt::Write>(&self, f: &mut fmt::Formatter<W>) -> fmt::Result {
        match self.0 {
            Some(number) => write!(f, "line {number}: "),
            None => Ok(()),
        }
    }
}

impl From<Memory> for FileFault {
    ghost use Rattle.std.specs.Prelude.{◌≡◌};
    ghost use Rattle.rclinks_command.specs.declared.files.FileFault.TheVariants.{Memory as NoRoom};

    ghost from_gives = { λ _ fault. fault ≡ NoRoom };

    fn from(_error: Memory) -> FileFault {
        FileFault::Memory
    }
}

impl FileFault {
    /// Returns the exit status.
    pub fn status(&self) -> u8
        ensures { result ≡ file_status self.now }
    {
        match self {
            FileFault::Unread(_) | FileFault::Memory => DEVICE_FAULT,
            FileFault::Name | FileFault::Header(_, _) => REFUSED,
        }
    }
}

/// Returns the refusal of a run for a fault of a file.
pub(crate) fn refusal_for(fault: &FileFault) -> Refusal
    ensures { refusal_status result ≡ file_status fault.now }
{
    match fault {
        FileFault::Unread(_) | FileFault::Memory => Refusal::Failed,
        FileFault::Name | FileFault::Header(_, _) => Refusal::Refused,
    }
}

/// Returns the text after the last `/` of a path, or the whole path if it has none.
pub(crate) fn last_part(path: &str) -> &str
    ensures { result.now ≡ last_part path.now }
{
    match path.rsplit_once('/') {
        Some((_, last)) => last,
        None => path,
    }
}

/// Returns the fault of a file with this text, whose header has this fault.
fn refusal_of(text: &[u8], fault: HeaderFault) -> FileFault
    ensures { result ≡ refusal_of text.now fault }
{
    match fault {
        HeaderFault::Memory => FileFault::Memory,
        HeaderFault::Twice(keyword) => FileFault::Header(fault, second_keyword_line(text, keyword)),
        _ => FileFault::Header(fault, None),
    }
}

/// Returns the script of a file with this name and text, or the first fault: a name that is not allowed in a link, or
/// otherwise the fault of the header.
pub fn script_in(alloc: Global, name: &str, text: &[u8]) -> Result<Script, FileFault>
    ensures script { IfOk result (IsScriptOf name.now text.now) }
    ensures fault { IfErr result (IsNoScript name.now text.now) }
    // If the name is not allowed in a link, or the first or the last line of the header is missing, reporting that
    // needs no memory.
    ensures named { is_name name.now ≡ false → result ≡ Err FileFault.Name }
    ensures frame { is_name name.now ≡ true → IfSome (frame_fault text.now) (λ fault.
        result ≡ Err (refusal_of text.now fault)) }
{
    if !is_name(name.as_bytes()) {
        return Err(FileFault::Name);
    }
    match lsb_header::read(alloc, text) {
        Ok(header) => match String::from_str(alloc, name) {
            Ok(name) => Ok(Script::new(name, header)),
            Err(AllocError) => Err(FileFault::Memory),
        },
        Err(fault) => Err(refusal_of(text, fault)),
    }
}

/// Returns the message that says why a file with this text is not a script, which line of the file is wrong and what
/// to write instead, and, if `skips` is set, that the file is omitted.
fn reason_lines(alloc: Global, path: &str, text: &[u8], fault: &FileFault, skips: bool) -> Vec<u8> {
    let mut more = Vec::new(alloc);
    let _ = match behind_end(text, fault) {
        Some((number, after)) => writeln!(
            more,
            "{path}: line {number}: \"{after}\" follows \"### END INIT INFO\", so that line does not end the header"
        ),
        None => writeln!(more, "{path}: {fault}"),
    };
    if skips {
        let _ = writeln!(more, "{path}: skipped");
    }
    more
}

/// Returns the words before the path of a file that is not a script.
fn word_of(fault: &FileFault) -> &'static str
    ensures { file_status fault.now ≡ 1 → result.now ≡ codes "bad header: " }
{
    match fault {
        FileFault::Unread(_) | FileFault::Memory => "cannot read: ",
        FileFault::Name | FileFault::Header(_, _) => "bad header: ",
    }
}

/// Adds the report of why a file with this text is not a script: a fixed first line, and the reason.
fn add_refusal(
    alloc: Global,
    path: &str,
    text: &[u8],
    fault: &FileFault,
    skips: bool,
    report: &mut Vec<u8>,
) -> Result<(), Memory>
    ensures { OnOk result (file_status fault.now ≡ 1
        → ReportsReason (codes "bad header: ") path.now report.old.items report.new.items) }
{
    if let FileFault::Memory = fault {
        return Ok(());
    }
    let more = reason_lines(alloc, path, text, fault, skips);
    add_why(report, word_of(fault), path, more.as_slice())
}

/// Reads the script at a path. Reports warnings about the lines of its header, and why it is not a script.
pub(crate) fn script_of<T: Texts>(
    texts: &T,
    alloc: Global,
    path: &str,
    skips: bool,
    report: &mut Vec<u8>,
) -> Result<Script, FileFault>
    ensures script { IfOk result (IsScriptAt (T.text_at texts.now) path.now) }
    ensures fault { IfErr result (IsNotRead (T.text_at texts.now) path.now) }
    ensures warned { OnOk result (ReportsWarning report.old.items report.new.items) }
    ensures told { IfErr result (λ fault. file_status fault ≡ 1
        → ReportsWhy (codes "bad header: ") path.now report.old.items report.new.items) }
{
    match texts.read_file(alloc, path) {
        Ok(text) => {
            let odd = odd_lines(alloc, path, text.as_slice());
            add_warnings(report, odd.as_slice())?;
            match script_in(alloc, last_part(path), text.as_slice()) {
                Ok(script) => Ok(script),
                Err(fault) => {
                    add_refusal(alloc, path, text.as_slice(), &fault, skips, report)?;
                    Err(fault)
                }
            }
        }
        Err(error) if error.kind() == ErrorKind::OutOfMemory => Err(FileFault::Memory),
        Err(error) => {
            let fault = FileFault::Unread(error);
            add_refusal(alloc, path, &[], &fault, skips, report)?;
            Err(fault)
        }
    }
}

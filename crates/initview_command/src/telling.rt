//! Reports of missing answers and of failed output.

ghost use Rattle.std.specs.Prelude.{◌≡◌};
ghost use Rattle.initview_command.specs.Words.{AppendsReport, WritesNothing};
ghost use Rattle.initview_command.specs.Refusals.{fault_status, memory_line, refusal_status};
ghost use Rattle.initview_command.specs.Showing.{EndsUnwritten};

use host_files::FolderFault;
use init_words::Memory;
use inittab_text::TableFault;
use initview_lines::{LineSink, SinkFault};
use jiff::Error;
use program_io::{DEVICE_FAULT, DONE, REFUSED, Reporter, report_failure, report_fault};
use std::io;

/// The reason why there is no answer.
#[derive(Drop)]
pub(crate) enum Refusal<'a> {
    /// The file at a path can't be read.
    Unread(&'a str, io::Error),
    /// A folder with files of inittabs can't be read.
    Folder(FolderFault),
    /// The trace at a path is compressed. The second value is the program that unpacks it.
    Packed(&'a str, &'static str),
    /// The file of an inittab at a path is compressed. The second value is as above.
    PackedTable(&'a str, &'static str),
    /// The trace begins in the middle of a run. A remark reports this.
    Within,
    /// The files are not an inittab.
    Table(TableFault),
    /// Out of memory.
    Memory,
}

impl<'a> From<Memory> for Refusal<'a> {
    ghost use Rattle.std.specs.Prelude.{◌≡◌};
    ghost use Rattle.initview_command.specs.declared.telling.Refusal.TheVariants as why;

    ghost from_gives = { λ _ refusal. refusal ≡ why.Memory };

    fn from(_error: Memory) -> Refusal<'a> {
        Refusal::Memory
    }
}

impl<'a> From<TableFault> for Refusal<'a> {
    ghost use Rattle.std.specs.Prelude.{◌≡◌};
    ghost use Rattle.initview_command.specs.declared.telling.Refusal.TheVariants as why;

    ghost from_gives = { λ fault refusal. refusal ≡ why.Table fault };

    fn from(fault: TableFault) -> Refusal<'a> {
        Refusal::Table(fault)
    }
}

/// Reports why there is no answer, and returns the exit status.
pub(crate) fn report_no_answer<E: Reporter>(refusal: &Refusal, err: &mut E) -> u8
    ensures { result ≡ refusal_status refusal.now }
{
    match refusal {
        Refusal::Unread(path, error) => report_unread(*path, error, err),
        Refusal::Folder(fault) => {
            writeln!(err, "initview: {fault}");
            DEVICE_FAULT
        }
        Refusal::Packed(path, unpacker) => {
            writeln!(
                err,
                "initview: {path} is compressed; use {unpacker} {path} | initview status -"
            );
            DEVICE_FAULT
        }
        Refusal::PackedTable(path, unpacker) => {
            writeln!(
                err,
                "initview: {path} is compressed; use {unpacker} {path} | initview lint -"
            );
            DEVICE_FAULT
        }
        Refusal::Within => REFUSED,
        Refusal::Table(fault) => report_no_table(*fault, err),
        Refusal::Memory => report_memory(err),
    }
}

/// Reports why files are not an inittab, and returns the exit status.
fn report_no_table<E: Reporter>(fault: TableFault, err: &mut E) -> u8
    ensures { result ≡ fault_status fault }
{
    writeln!(err, "initview: {fault}");
    match fault {
        TableFault::Memory => DEVICE_FAULT,
        TableFault::TooLong | TableFault::Parts => REFUSED,
    }
}

/// Reports why not all lines were written, and returns the exit status. If the reader of the output is gone, reports
/// nothing.
pub(crate) fn report_unsaid<S: LineSink, E: Reporter>(
    fault: SinkFault,
    out: &mut S,
    err: &mut E,
) -> u8
    ensures ends { EndsUnwritten result (S.said out.new) }
    ensures said { WritesNothing (S.said out.old) (S.said out.new) }
    ensures silent { result ≡ DONE → E.reports err.new ≡ E.reports err.old }
{
    match fault {
        SinkFault::Memory => report_memory(err),
        SinkFault::Unwritten => report_unwritten(out, err),
    }
}

/// Reports that the output failed, unless its reader is gone, and returns the exit status.
fn report_unwritten<S: LineSink, E: Reporter>(out: &mut S, err: &mut E) -> u8
    ensures ends { EndsUnwritten result (S.said out.new) }
    ensures said { WritesNothing (S.said out.old) (S.said out.new) }
    ensures silent { result ≡ DONE → E.reports err.new ≡ E.reports err.old }
{
    if out.is_unread() {
        return DONE;
    }
    report_fault("initview", "cannot write", err)
}

/// Reports why times can't be local, and returns the exit status.
pub(crate) fn report_zone<E: Reporter>(error: Error, err: &mut E) -> u8
    ensures { result ≡ DEVICE_FAULT }
{
    writeln!(
        err,
        "initview: cannot read the time zone: {error}; set TZ to another one, or omit --local"
    );
    DEVICE_FAULT
}

pub(crate) fn report_memory<E: Reporter>(err: &mut E) -> u8
    ensures status { result ≡ DEVICE_FAULT }
    ensures report { AppendsReport (E.reports err.old) (E.reports err.new) memory_line }
{
    report_fault("initview", "out of memory", err)
}

pub(crate) fn report_unread<E: Reporter>(path: &str, error: &io::Error, err: &mut E) -> u8
    ensures { result ≡ DEVICE_FAULT }
{
    report_failure("initview", "cannot read", path, error, "", err)
}

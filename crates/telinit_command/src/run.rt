//! Runs the `telinit` program, and reports its faults.

ghost use Rattle.std.specs.Prelude.{◌≡◌, ◌⊎◌, true, false, codes, map, string_bytes, IfSome, IsSome, IsNone};
ghost use Rattle.command_words.specs.CommandLines.{asks_version};
ghost use Rattle.command_words.specs.Rejections.{ReportsRejection};
ghost use Rattle.command_words.specs.VersionLine.{PrintsVersion};
ghost use Rattle.program_io.specs.Reports.{LastReportNonempty};
ghost use Rattle.telinit_command.specs.Channels.{AreSame, AppendsRequest, AppendsRequestPrefix};
ghost use Rattle.telinit_command.specs.CommandLine.{block_for, telinit_read_of};
ghost use Rattle.telinit_command.specs.Notes.{ReportsChannel};

use crate::channel::{ChannelFault, append_block};
use crate::channels::Channels;
use crate::command::read_asked;
use command_words::{is_version, print_version, report_rejected};
use itoa::Buffer;
use program_io::{DEVICE_FAULT, DONE, REFUSED, Reporter, report_failure};
use std::alloc::Global;
use std::io::Write;

/// The line that names the manual page. It follows the help, and each message about rejected arguments.
pub const MANUAL: &str = "See the manual page telinit(8).\n";

/// Runs telinit on a command line, without the program's name, and returns its exit status.
///
/// - 0: one request block was appended, or the version was written.
/// - 1: the arguments are rejected.
/// - 4: the block could not be written, the output fails, or memory runs out.
///
/// `home` is the folder of the channel in the environment, or empty. If `--version` is the only argument, the version
/// is written to `out`. Faults are reported on `err`, and also that the channel was created or that no init reads it.
/// If a block could not be written, a prefix of it may have been appended.
pub fn run_words<C: Channels, W: Write, E: Reporter>(
    channels: &mut C,
    alloc: Global,
    home: &str,
    words: Vec<String>,
    out: &mut W,
    err: &mut E,
) -> u8
    ensures statuses { (result ≡ DONE) ⊎ (result ≡ REFUSED) ⊎ (result ≡ DEVICE_FAULT) }
    ensures done { result ≡ DONE → (asks_version (map string_bytes words.items) ≡ true)
        ⊎ IsSome (block_for home.now (map string_bytes words.items)) }
    ensures usage { result ≡ REFUSED → IsNone (block_for home.now (map string_bytes words.items)) }
    ensures appended { result ≡ DONE → asks_version (map string_bytes words.items) ≡ false
        → AppendsRequest home.now (map string_bytes words.items) (C.bytes_at channels.old)
        (C.bytes_at channels.new) }
    ensures unappended { result ≡ DEVICE_FAULT
        → AreSame (C.bytes_at channels.old) (C.bytes_at channels.new)
        ⊎ AppendsRequestPrefix home.now (map string_bytes words.items)
        (C.bytes_at channels.old) (C.bytes_at channels.new) }
    ensures unasked { (result ≡ REFUSED) ⊎ (asks_version (map string_bytes words.items) ≡ true)
        → AreSame (C.bytes_at channels.old) (C.bytes_at channels.new) }
    ensures quiet { asks_version (map string_bytes words.items) ≡ false → out.new ≡ out.old }
    ensures version { asks_version (map string_bytes words.items) ≡ true
        → PrintsVersion (codes "telinit") result (W.contents out.old) (W.contents out.new) }
    // The reports about a channel to which a block was appended.
    ensures told { result ≡ DONE → (err.new ≡ err.old)
        ⊎ IfSome (telinit_read_of home.now (map string_bytes words.items))
        (λ arguments. ReportsChannel arguments.path (E.reports err.old) (E.reports err.new)) }
    ensures report { result ≡ REFUSED
        → ReportsRejection MANUAL.now (E.reports err.old) (E.reports err.new) }
    ensures spoken { result ≡ DEVICE_FAULT → LastReportNonempty (E.reports err.new) }
{
    if is_version(words.as_slice()) {
        return print_version("telinit", out, err);
    }
    match read_asked(alloc, home, words) {
        Ok(asked) => {
            let path = asked.path.as_str();
            match append_block(channels, path, &asked.block, err) {
                Ok(()) => DONE,
                Err(fault) => report_channel(path, &fault, err),
            }
        }
        Err(fault) => report_rejected("telinit", &fault, MANUAL, err),
    }
}

/// The hint that follows the reason if the channel could not be opened or written.
const SEE: &str = "\ntelinit: check that it is a file that you can write, in an existing folder, \
    on a disk with free space";

fn report_channel<E: Reporter>(path: &str, fault: &ChannelFault, err: &mut E) -> u8
    ensures status { result ≡ DEVICE_FAULT }
    ensures spoken { LastReportNonempty (E.reports err.new) }
{
    match fault {
        ChannelFault::Torn(length) => report_torn(path, Buffer::new().format(*length), err),
        ChannelFault::Device(error) => {
            report_failure("telinit", "cannot append to", path, error, SEE, err)
        }
    }
}

/// Reports that the channel, with this number of bytes, ends within a request, and returns the exit status.
fn report_torn<E: Reporter>(path: &str, length: &str, err: &mut E) -> u8
    ensures status { result ≡ DEVICE_FAULT }
    ensures spoken { LastReportNonempty (E.reports err.new) }
{
    err.report_texts(&[
        "telinit: cannot append to ",
        path,
        ": it has ",
        length,
        " bytes, which is not a whole number of requests\ntelinit: remove the rest with truncate -s /384 ",
        path,
        ", or stop init and remove ",
        path,
        "\n",
    ]);
    DEVICE_FAULT
}

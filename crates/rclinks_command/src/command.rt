//! The command line of rclinks, and its output.

ghost use Rattle.std.specs.Prelude.{◌≡◌, ◌⊎◌, true, false, codes, map, string_bytes, IfOk, None};
ghost use Rattle.clap.specs.Words.{found_of, rows_of};
ghost use Rattle.command_words.specs.CommandLines.{asks_version};
ghost use Rattle.command_words.specs.Rejections.{ReportsRejection};
ghost use Rattle.command_words.specs.VersionLine.{PrintsVersion};
ghost use Rattle.program_io.specs.Reports.{LastReportNonempty};
ghost use Rattle.rclinks_command.specs.LineOptions.{line_options};
ghost use Rattle.rclinks_command.specs.Command.{keeps_going, Does, DoesPart, IsRefusedBy, ParsedArgumentsSatisfy, TellsRefused, asked_by, line_with, rclinks_read_of, writes_by};

use crate::answer::{answer_of, write};
use crate::facilities::files_with;
use crate::folders::LinkFolders;
use crate::line::Line;
use clap::ArgMatches;
use command_words::{
    Argument, Form, is_set, is_version, print_version, read_arguments, report_rejected, word_of,
    words_of,
};
use init_words::Memory;
use program_io::{DEVICE_FAULT, DONE, REFUSED, Reporter, Texts, report_no_memory};
use std::alloc::Global;
use std::io::Write;

/// The line that names the manual page. It follows the help, and each message about rejected arguments.
pub const MANUAL: &str = "See the manual page rclinks(8).\n";

/// The command lines, which help and the messages about rejected arguments show.
const USAGE: &str = "rclinks [OPTIONS] FILE...
       rclinks --version";

/// The options and the positional arguments of the command line.
const OPTIONS: &[Argument] = &[
    (
        "--all",
        Form::Flag,
        "",
        "",
        "Report all faults, not only the first",
    ),
    (
        "--skip",
        Form::Flag,
        "",
        "",
        "Skip the scripts that cannot be read or planned,
and plan the others",
    ),
    (
        "--all-last",
        Form::Flag,
        "",
        "",
        "Start what needs $all after everything else, and
stop what names it first",
    ),
    (
        "--write",
        Form::Valued,
        "DIR",
        "",
        "Create the links in DIR, in rc0.d to rc9.d and rcS.d,
and remove the scripts' other numbered links; the
installed facility files are read before the scripts",
    ),
    (
        "-n",
        Form::Flag,
        "",
        "",
        "Print what --write would do, and change nothing",
    ),
    (
        "--keep",
        Form::Flag,
        "",
        "",
        "Leave a script that has links in DIR in its runlevels,
and only renumber it",
    ),
    (
        "--prune",
        Form::Flag,
        "",
        "",
        "Remove numbered links to ../init.d/NAME if DIR/init.d
has no NAME",
    ),
    (
        "--no-facilities",
        Form::Flag,
        "",
        "",
        "Read no facility file that is not among the files",
    ),
    ("FILE", Form::Repeated, "", "", "The init scripts"),
];

/// Returns the parsed command line for these files.
fn line_of<'f, 'w>(matches: &ArgMatches<'w>, files: &'f [&'w str]) -> Line<'f, 'w>
    ensures { line_options result ≡ record (asked_by (rows_of (found_of matches.now)))
        { files = map (λ file. file.now) files.entry.now } }
{
    Line {
        all: is_set(matches, "--all"),
        skips: is_set(matches, "--skip"),
        last: is_set(matches, "--all-last"),
        dry: is_set(matches, "-n"),
        bare: is_set(matches, "--no-facilities"),
        keeps: is_set(matches, "--keep"),
        prunes: is_set(matches, "--prune"),
        dir: word_of(matches, "--write"),
        files,
    }
}

/// Returns the files to read. If the facility files are used, they come first.
fn files_of<'w>(
    alloc: Global,
    facilities: &'w [String],
    matches: &ArgMatches<'w>,
) -> Result<Vec<&'w str>, Memory>
    ensures { IfOk result (λ files. map (λ file. file.now) files.items
        ≡ (line_with (map string_bytes facilities.now)
        (asked_by (rows_of (found_of matches.now)))).files) }
{
    let takes = word_of(matches, "--write").is_some() && !is_set(matches, "--no-facilities");
    match words_of(matches, "FILE") {
        Some(files) => files_with(alloc, facilities, takes, files),
        None => files_with(alloc, facilities, takes, &[]),
    }
}

/// Runs rclinks with its arguments, options and the paths of init scripts, and returns its exit status.
///
/// - 0: the links were printed to `out` or created, or the changes or the version were printed.
/// - 1: the arguments are rejected, a script's name or header is rejected, the scripts have no plan, or the name of a
///   link is occupied.
/// - 4: a file can't be read, a folder can't be listed or changed, the output fails, or memory runs out.
///
/// The first fault ends the run and is reported on `err`. Warnings about headers are also reported on `err`, whatever
/// the status. The options change this:
///
/// - `--all`: reports all faults; the first fault determines the status.
/// - `--skip`: omits scripts that can't be read or planned.
/// - `--all-last`: puts scripts that name `$all` last.
/// - `--write DIR`: creates the links in the folders of a directory instead of printing them, and removes numbered
///   links to the scripts that are not in the plan. The facility files are read before the scripts, except those with
///   the name of a script.
/// - `--write DIR -n`: prints these changes, and makes none.
/// - `--write DIR --keep`: keeps the runlevels of a script that has numbered links there.
/// - `--write DIR --prune`: also removes numbered links to scripts that `init.d` of the directory does not have.
/// - `--write DIR --no-facilities`: does not read the facility files.
#[tactic(auto, using(crate::proofs::FreeLine::is_free_line))]
pub fn run_words<'w, T: Texts, F: LinkFolders, W: Write, E: Reporter>(
    texts: &T,
    folders: &mut F,
    alloc: Global,
    facilities: &'w [String],
    words: &'w [String],
    out: &mut W,
    err: &mut E,
) -> u8
    ensures statuses { (result ≡ DONE) ⊎ (result ≡ REFUSED) ⊎ (result ≡ DEVICE_FAULT) }
    ensures usage { asks_version (map string_bytes words.now) ≡ false
        → rclinks_read_of (map string_bytes words.now) ≡ None
        → (result ≡ DEVICE_FAULT) ⊎ (result ≡ REFUSED)
        × ReportsRejection MANUAL.now (E.reports err.old) (E.reports err.new) }
    ensures version { asks_version (map string_bytes words.now) ≡ true
        → PrintsVersion (codes "rclinks") result (W.contents out.old) (W.contents out.new) }
    // The links for all files, except omitted ones, were printed or created, or the changes were printed.
    ensures done { asks_version (map string_bytes words.now) ≡ false → result ≡ DONE →
        ParsedArgumentsSatisfy (map string_bytes words.now) (λ line. Does (T.text_at texts.now)
        (line_with (map string_bytes facilities.now) line) (F.scripts_in folders.old)
        (F.held folders.old) (F.held folders.new) (W.contents out.old) (W.contents out.new)) }
    // The arguments are rejected, a file was rejected, the scripts have no plan, or the name of a link is occupied.
    ensures refused { result ≡ REFUSED → (rclinks_read_of (map string_bytes words.now) ≡ None)
        ⊎ ParsedArgumentsSatisfy (map string_bytes words.now)
        (λ line. IsRefusedBy (T.text_at texts.now)
        (line_with (map string_bytes facilities.now) line) (F.scripts_in folders.old)
        (F.held folders.old)) }
    // Without --all and --skip, warnings are reported, then a file's path or the plan's first fault, unless a name is
    // occupied.
    ensures told { asks_version (map string_bytes words.now) ≡ false → result ≡ REFUSED
        → (rclinks_read_of (map string_bytes words.now) ≡ None)
        ⊎ ParsedArgumentsSatisfy (map string_bytes words.now) (λ line. keeps_going line ≡ false
        → TellsRefused (T.text_at texts.now) (line_with (map string_bytes facilities.now) line)
        (F.scripts_in folders.old) (F.held folders.old) (E.reports err.old) (E.reports err.new)) }
    ensures spoken { result ≡ DEVICE_FAULT → LastReportNonempty (E.reports err.new) }
    ensures quiet { result ≡ REFUSED → (out.new ≡ out.old) × (folders.new ≡ folders.old) }
    // Only `--write` without `-n` changes anything, and then nothing is printed.
    ensures kept { writes_by (rclinks_read_of (map string_bytes words.now)) ≡ false
        → folders.new ≡ folders.old }
    ensures silent { asks_version (map string_bytes words.now) ≡ false
        → writes_by (rclinks_read_of (map string_bytes words.now)) ≡ true → out.new ≡ out.old }
    // Nothing was written, or a prefix of the text, possibly all of it, or the first changes were made.
    ensures part { asks_version (map string_bytes words.now) ≡ false
        → (out.new ≡ out.old) × (folders.new ≡ folders.old)
        ⊎ ParsedArgumentsSatisfy (map string_bytes words.now)
        (λ line. DoesPart (T.text_at texts.now)
        (line_with (map string_bytes facilities.now) line) (F.scripts_in folders.old)
        (F.held folders.old) (F.held folders.new) (W.contents out.old) (W.contents out.new)) }
{
    if is_version(words) {
        return print_version("rclinks", out, err);
    }
    let matches = match read_arguments(alloc, "rclinks", USAGE, OPTIONS, words) {
        Ok(matches) => matches,
        Err(fault) => return report_rejected("rclinks", &fault, MANUAL, err),
    };
    let Ok(files) = files_of(alloc, facilities, &matches) else {
        return report_no_memory("rclinks", err);
    };
    let line = line_of(&matches, files.as_slice());
    let answer = answer_of(texts, folders, alloc, &line);
    write(folders, alloc, &answer, out, err)
}

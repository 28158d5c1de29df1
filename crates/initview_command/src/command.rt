//! The `initview` program: reads its arguments and carries out the command.

ghost use Rattle.std.specs.Prelude.{◌≡◌, ◌∷◌, [], codes, false, true, map, string_bytes, None, OnErr, OnOk};
ghost use Rattle.initview_command.specs.Words.{asks_version, version_line, DONE, WritesNothing};
ghost use Rattle.initview_lines.specs.declared.lines.Line.TheVariants as line;
ghost use Rattle.initview_command.specs.Asking.{asked_of, path_texts};
ghost use Rattle.initview_command.specs.Refusals.{ReportsRefusal};
ghost use Rattle.initview_command.specs.Endings.{Does, ArgumentsEnd, timed};
ghost use Rattle.initview_command.specs.Showing.{Writes};

use crate::asking::{Command, Paths, matched, paths_of, what_of};
use crate::explaining::why_answer;
use crate::following::follow_file;
use crate::growing::LiveTraces;
use crate::planning::timing_answer;
use crate::refusals::{report_fault, report_refusal};
use crate::reloading::reload_answer;
use crate::showing::{say_lines, trace_answer, write};
use crate::tables::tables_answer;
use crate::telling::{report_memory, report_zone};
use command_words::{is_set, is_version, words_of, write_version};
use initview_lines::{LineSink, text_line};
use jiff::Error;
use program_io::{DONE, Reporter, Reports, Texts};
use std::alloc::Global;

/// The usage, printed when help is requested. If the arguments of a command are rejected, only the line of this command
/// is printed. Each line up to the last one that begins with blanks and `initview` is for one command.
pub const USAGE: &str = "usage: initview why [--inittab-dir DIR] ID TRACE [TABLE..]
       initview status [--json] [--local] TRACE [ID]
       initview left [--json] TRACE
       initview timeline [--svg | --width N] [--faults] [--local] TRACE
       initview follow [-n N] [--local] TRACE
       initview lint [--programs FOLDERS] [--inittab-dir DIR] TABLE [FILE..]
       initview diff [--trace T] [--level L] [--inittab-dir DIR] OLD NEW
       initview plan [--trace T] [--level L] [--inittab-dir DIR] TABLE [FILE..]
       initview --version
  why     print why the entry ID is not started next, the line of TRACE that
          decides it, and what to do; with TABLE also where the inittab has a
          line of ID, and why that line is ignored
  status  print the state of init and its entries, or of the entry ID only; with
          ID the exit status is 0 if it runs, 3 if it does not, 4 if that is
          unknown; with --json print one line of JSON for each
  left    list the children that were born and not reaped, with their numbers,
          and with ? as its number each start whose outcome the trace does not
          have
  timeline
          draw the lives of each entry's children, signals, holds and stages
          over time, in lines of N columns, 80 by default, or with --svg as a
          picture for a browser; with --faults only the rows of entries with
          faults
  follow  print a line for each happening that an operator should know of, also
          while the trace is being written, until it is interrupted; with -n
          begin with the last N lines, even if TRACE begins in the middle of a
          run and what came before is gone: then it is not judged
  lint    list the faults of an inittab's lines, with what was probably meant,
          and warnings; the exit status is 1 with faults, 2 with warnings only;
          with --programs also warn of programs that are not in FOLDERS, a list
          like the \"$PATH\" of init
  diff    list what happens to each entry in a level if the inittab NEW is read
          in place of OLD; with --trace also to what runs now, and the exit
          status is as for status TRACE
  plan    list what init starts on the way to a level, in order, what it waits
          for, and the critical path: the entries whose ends the level depends
          on; with --trace also how long each of these took there, and the exit
          status is as for status TRACE
  Options may come anywhere; with --local times are in the system's zone.
  ID      an id of the inittab, 1 to 8 characters
  TRACE   a trace of init, which may still be being written; - is standard
          input; the same goes for T
  TABLE   an inittab; the FILEs continue it, and so do those of the folder DIR
          that init takes
  L       0 to 9 or S; the default is the default level of the new inittab, or
          with --trace the stage in force at its end
";

/// Runs initview with its arguments and returns the exit status.
///
/// - 0: the trace was read to its end, and the answer was written to `out`.
/// - 1: the arguments are rejected, a line is not a line of a trace, the text begins in the middle of a run (except
///   with `follow -n`), an inittab is too large, or `lint` found faults.
/// - 2: a happening breaks a law, or `lint` found only warnings.
/// - 4: the trace can't be read, the output fails, or memory runs out.
///
/// `status TRACE ID` returns 0, 3 or 4, as defined by the LSB.
///
/// If a line is not a line of a trace, or breaks a law, the commands use only the happenings before it. They show
/// nothing of a text that begins in the middle of a run, except that `follow -n` shows its last lines. `follow` reads
/// the trace from `growing` until it ends, and writes each line immediately. Faults of files are reported on `err`.
pub fn run_words<T: Texts, G: LiveTraces, S: LineSink, E: Reporter>(
    texts: &T,
    growing: &G,
    alloc: Global,
    words: &[String],
    out: &mut S,
    err: &mut E,
) -> u8
    ensures ends { ArgumentsEnd (T.text_at texts.now) (G.text_at growing.now)
        (G.writer_at growing.now) (map string_bytes words.now)
        result (S.said out.old) (S.said out.new) }
    // If the arguments select no command, the reason and the usage of the command are reported.
    ensures refused { asks_version (map string_bytes words.now) ≡ false
        → asked_of (map string_bytes words.now) ≡ None
        → ReportsRefusal result (E.reports err.old) (E.reports err.new) }
{
    if is_version(words) {
        return say_version(alloc, out, err);
    }
    let matches = match matched(alloc, words) {
        Ok(matches) => matches,
        Err(fault) => return report_fault(alloc, &fault, words, err),
    };
    let words = words_of(&matches, "WORD").unwrap_or(&[]);
    let Some(command) = what_of(&matches, words) else {
        return report_refusal(alloc, &matches, words, err);
    };
    if let Err(error) = use_times(is_set(&matches, "--local"), out) {
        return report_zone(error, err);
    }
    let paths = paths_of(&command, &matches, words);
    run_asked(texts, growing, alloc, command, &paths, out, err)
}

/// Writes the version and returns the exit status.
#[tactic(auto, using(crate::proofs::Shown::none_written))]
fn say_version<S: LineSink, E: Reporter>(alloc: Global, out: &mut S, err: &mut E) -> u8
    ensures { Writes (line.Text (version_line (codes "initview")) ∷ []) DONE result
        (S.said out.old) (S.said out.new) }
{
    let mut text = Vec::new(alloc);
    if !write_version("initview", &mut text) {
        return report_memory(err);
    }
    match text_line(alloc, text) {
        Ok(lines) => say_lines(alloc, lines, DONE, out, err),
        Err(_) => report_memory(err),
    }
}

/// Switches the output to times in the system's time zone, if `is_local` is set.
fn use_times<S: LineSink>(is_local: bool, out: &mut S) -> Result<(), Error>
    ensures ok { OnOk result (S.said out.new ≡ timed is_local (S.said out.old)) }
    ensures err { OnErr result
        ((is_local ≡ true) × WritesNothing (S.said out.old) (S.said out.new)) }
{
    if is_local {
        out.use_local_times()
    } else {
        Ok(())
    }
}

/// Carries out a command and returns the exit status.
fn run_asked<T: Texts, G: LiveTraces, S: LineSink, E: Reporter>(
    texts: &T,
    growing: &G,
    alloc: Global,
    what: Command,
    paths: &Paths,
    out: &mut S,
    err: &mut E,
) -> u8
    ensures { Does (T.text_at texts.now) (G.text_at growing.now) (G.writer_at growing.now)
        (path_texts paths.now) what result (S.said out.old) (S.said out.new) }
{
    let mut remarks = Reports::to(Vec::new(alloc));
    match what {
        Command::Follow(last) => follow_file(growing, alloc, paths.path, last, out, err),
        Command::Show(query) => {
            let answer = trace_answer(texts, growing, alloc, paths.path, query, &mut remarks);
            write(alloc, answer, &remarks, out, err)
        }
        Command::Draw(form) => {
            let answer = trace_answer(texts, growing, alloc, paths.path, form, &mut remarks);
            write(alloc, answer, &remarks, out, err)
        }
        Command::Explain(id) => {
            let answer = why_answer(texts, growing, alloc, paths, id, &mut remarks);
            write(alloc, answer, &remarks, out, err)
        }
        Command::Reload(level) => {
            let answer = reload_answer(texts, growing, alloc, paths, level, &mut remarks);
            write(alloc, answer, &remarks, out, err)
        }
        Command::Timing(level) => {
            let answer = timing_answer(texts, growing, alloc, paths, level, &mut remarks);
            write(alloc, answer, &remarks, out, err)
        }
        Command::Tables(question) => {
            let answer = tables_answer(texts, growing, alloc, paths, question, &mut remarks);
            write(alloc, answer, &remarks, out, err)
        }
    }
}

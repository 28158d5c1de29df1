//! The lines of scripts, and the commands that start them.

ghost use Rattle.std.specs.Prelude.{◌≡◌, ◌++◌, string_bytes, true, codes, IfOk, IfErr, OnOk};
ghost use Rattle.std.specs.Io.KnownBytes.{Appends};
ghost use Rattle.program_io.specs.Reports.{AppendsReport};
ghost use Rattle.program_io.specs.Writing.{AppendsPrefix};
ghost use Rattle.rc_driver.specs.Report.{TellsStart, arg_word, before_code, begin_line, command_text, level_words, line_of, script_line, shell_word};
ghost use Rattle.rc_driver.specs.Times.{signal_line, signal_word};
ghost use Rattle.rc_driver.specs.declared.driving.RunEnd.TheVariants as run_end;

use crate::driving::RunEnd;
use crate::runs::{Arg, LevelChange, RcAnswer, ScriptOptions};
use crate::times::wait_of;
use init_words::{Level, SignalKind, Status};
use itoa::Buffer;
use program_io::{Reporter, write_texts};
use std::alloc::{AllocError, Allocator};
use std::io;
use std::io::Write;

fn arg_word(arg: Arg) -> &'static str
    ensures { result.now ≡ arg_word arg }
{
    match arg {
        Arg::Start => "start",
        Arg::Stop => "stop",
    }
}

/// Writes the line of a script from its parts.
fn write_script<W: Write>(
    out: &mut W,
    link: &str,
    word: &str,
    how: &str,
    code: &str,
) -> io::Result<()>
    ensures ok { OnOk result (Appends (W.contents out.old) (W.contents out.new)
        (link.now ++ (codes " " ++ (word.now ++ (how.now ++ (code.now ++ codes "\n")))))) }
    ensures part { AppendsPrefix (W.contents out.old) (W.contents out.new)
        (link.now ++ (codes " " ++ (word.now ++ (how.now ++ (code.now ++ codes "\n"))))) }
{
    write_texts(out, &[link, " ", word, how, code, "\n"])
}

/// Writes the line of a script, which ends with two texts, and flushes it.
fn tell_script<W: Write>(
    out: &mut W,
    link: &str,
    arg: Arg,
    how: &str,
    code: &str,
) -> Result<(), RunEnd<'static>>
    ensures ok { OnOk result (Appends (W.contents out.old) (W.contents out.new)
        (script_line (link.now, arg) (how.now ++ (code.now ++ codes "\n")))) }
    ensures err { IfErr result (λ ended. (ended ≡ run_end.Write) × AppendsPrefix
        (W.contents out.old) (W.contents out.new)
        (script_line (link.now, arg) (how.now ++ (code.now ++ codes "\n")))) }
{
    if write_script(out, link, arg_word(arg), how, code).is_err() || out.flush().is_err() {
        return Err(RunEnd::Write);
    }
    Ok(())
}

/// Writes the line for a script's start, if starts are written.
pub(crate) fn tell_start<W: Write>(
    out: &mut W,
    way: ScriptOptions,
    link: &str,
    arg: Arg,
) -> Result<(), RunEnd<'static>>
    ensures ok { OnOk result
        (TellsStart way (link.now, arg) (W.contents out.old) (W.contents out.new)) }
    ensures err { IfErr result (λ ended. (ended ≡ run_end.Write) × (way.verbose ≡ true)
        × AppendsPrefix (W.contents out.old) (W.contents out.new)
        (begin_line (link.now, arg))) }
{
    if way.verbose {
        tell_script(out, link, arg, " begins", "")
    } else {
        Ok(())
    }
}

/// Writes the line of a script that is finished.
pub(crate) fn tell_end<W: Write>(
    out: &mut W,
    link: &str,
    arg: Arg,
    answer: &RcAnswer,
) -> Result<(), RunEnd<'static>>
    ensures ok { OnOk result (Appends (W.contents out.old) (W.contents out.new)
        (line_of (link.now, arg) answer.now)) }
    ensures err { IfErr result (λ ended. (ended ≡ run_end.Write) × AppendsPrefix
        (W.contents out.old) (W.contents out.new) (line_of (link.now, arg) answer.now)) }
{
    match answer {
        RcAnswer::Ended(Status::Exit(code)) => {
            let mut buffer = Buffer::new();
            tell_script(out, link, arg, " exit ", buffer.format(*code))
        }
        RcAnswer::Ended(Status::Killed) => tell_script(out, link, arg, " killed", ""),
        RcAnswer::NotStarted => tell_script(out, link, arg, " not started", ""),
    }
}

/// Returns the text before a script's path in the command that starts it.
fn shell_word(way: ScriptOptions) -> &'static str
    ensures { result.now ≡ shell_word way }
{
    if way.direct { "" } else { "sh " }
}

/// Returns the character of the previous level, or `N` if there was none.
fn before_code(before: Option<Level>) -> u8
    ensures { result ≡ before_code before }
{
    match before {
        Some(level) => level.code(),
        None => b'N',
    }
}

/// Returns the text that sets the two levels for a script, if scripts are given them.
fn level_words<A: Allocator>(alloc: A, levels: Option<LevelChange>) -> Result<String<A>, AllocError>
    ensures { IfOk result (λ text. string_bytes text ≡ level_words levels) }
{
    let Some(change) = levels else {
        return Ok(String::new(alloc));
    };
    let new = char::from(change.new.code());
    let before = char::from(before_code(change.before));
    format!(in alloc; "env RUNLEVEL={new} PREVLEVEL={before} ")
}

/// Returns the command that starts a script.
pub(crate) fn command_of<A: Allocator + Copy>(
    alloc: A,
    way: ScriptOptions,
    dir: &str,
    link: &str,
    arg: Arg,
) -> Result<String<A>, AllocError>
    ensures { IfOk result (λ text.
        string_bytes text ≡ command_text way dir.now (link.now, arg)) }
{
    let levels = level_words(alloc, way.levels)?;
    let shell = shell_word(way);
    let word = arg_word(arg);
    format!(in alloc; "{levels}{shell}{dir}/{link} {word}")
}

fn signal_word(signal: SignalKind) -> &'static str
    ensures { result.now ≡ signal_word signal }
{
    match signal {
        SignalKind::Term => " s: TERM was sent",
        SignalKind::Kill => " s more: KILL was sent",
    }
}

/// The message about a script that exceeds its time, after its link.
const LATE: &str = " has not ended after ";

/// Reports by how much a script has exceeded its time, and which signal it was sent.
fn tell_late<E: Reporter>(err: &mut E, dir: &str, link: &str, seconds: &str, sent: &str)
    ensures { AppendsReport (E.reports err.old) (E.reports err.new) (codes "rc: " ++ (dir.now
        ++ (codes "/" ++ (link.now ++ (codes " has not ended after " ++ (seconds.now
        ++ (sent.now ++ codes "\n"))))))) }
{
    err.report_texts(&["rc: ", dir, "/", link, LATE, seconds, sent, "\n"]);
}

/// Reports that a script was sent a signal.
pub(crate) fn tell_signal<E: Reporter>(
    err: &mut E,
    limit: Option<u32>,
    dir: &str,
    link: &str,
    signal: SignalKind,
)
    ensures { AppendsReport (E.reports err.old) (E.reports err.new)
        (signal_line limit dir.now link.now signal) }
{
    let mut buffer = Buffer::new();
    let seconds = buffer.format(wait_of(limit, signal));
    tell_late(err, dir, link, seconds, signal_word(signal));
}

/// Writes a text as a line, and flushes it.
pub(crate) fn tell_text<W: Write>(out: &mut W, text: &str) -> Result<(), RunEnd<'static>>
    ensures ok { OnOk result (Appends (W.contents out.old) (W.contents out.new)
        (text.now ++ codes "\n")) }
    ensures err { IfErr result (λ ended. (ended ≡ run_end.Write) × AppendsPrefix
        (W.contents out.old) (W.contents out.new) (text.now ++ codes "\n")) }
{
    if write_texts(out, &[text, "\n"]).is_err() || out.flush().is_err() {
        return Err(RunEnd::Write);
    }
    Ok(())
}

//! The warnings about a line that init accepts but that does not do what it seems to do.

ghost use Rattle.std.specs.Prelude.{◌≡◌, ◌++◌, map, OnOk};
ghost use Rattle.std.specs.List.{list_any};
ghost use Rattle.inittab_text.specs.Kept.{levels_meant};
ghost use Rattle.inittab_text.specs.Lines.{fields_at, fields_of, is_ignored};
ghost use Rattle.inittab_lint.specs.Warnings.{at_line, begins_marked, counts, counts_none, has_idle, holds, holds_of, run_by, warnings_by, warnings_of_line};

use crate::shell::{
    Operator, begins_with, ends_with, expands_early, first_word, has_comment, is_assigned,
    is_shell_word, operator_of,
};
use init_words::{Act, Letter, Level, without_plus};
use inittab_text::Fields;
use std::alloc::{AllocError, Allocator};
use text_lines::without_blanks;

/// A way in which the effect of a line differs from what the line seems to say (inittab(5)).
#[derive(Clone, Copy, PartialEq, Eq)]
pub enum Warning {
    /// A character of the runlevels is ignored.
    Runlevel,
    /// The action ignores the runlevels, and the field is not empty.
    IgnoredLevels,
    /// No character of the runlevels is a level.
    NoLevel,
    /// No character of an ondemand entry's runlevels is a letter.
    NoLetter,
    /// The child of a boot entry stays alive in every level.
    Boot,
    /// The action is started only by a signal, which init does not handle.
    SignalOnly,
    /// The line ends with a carriage return.
    Return,
    /// The process begins with `@`.
    At,
    /// The process begins with a word of the shell.
    ShellWord,
    /// The process begins with an assignment.
    Assignment,
    /// The process has `;`, `&&` or `||`.
    Chain,
    /// The process has `|`.
    Pipe,
    /// The process has `&`.
    Background,
    /// A quote or a parenthesis of the process is not closed.
    Unclosed,
    /// A word of the process begins with `#`, but no shell reads it.
    Comment,
    /// The process runs a shell with a command in double quotes, in which init's shell expands a `$` first.
    Early,
    /// The line begins with a byte order mark.
    Marked,
    /// The program of the process is in none of the folders that were searched.
    Missing,
}

/// A warning about a line of one of several files.
#[derive(Clone, Copy, PartialEq, Eq)]
pub struct LineWarning {
    /// The number of the file, counted from 0.
    pub part: usize,
    /// The number of the line in its file, counted from 1.
    pub line: usize,
    pub kind: Warning,
}

/// The warnings that depend only on the line, in the order of the output.
const WARNINGS: [Warning; 16] = [
    Warning::Runlevel,
    Warning::IgnoredLevels,
    Warning::NoLevel,
    Warning::NoLetter,
    Warning::Boot,
    Warning::SignalOnly,
    Warning::Return,
    Warning::At,
    Warning::ShellWord,
    Warning::Assignment,
    Warning::Chain,
    Warning::Pipe,
    Warning::Background,
    Warning::Unclosed,
    Warning::Comment,
    Warning::Early,
];

/// Reports whether a character of the runlevels has a meaning for an entry with this action.
fn counts(act: Act, byte: u8) -> bool
    ensures { result ≡ counts act byte }
{
    if act.ignores_levels() {
        return false;
    }
    if act.is_ondemand() {
        return Letter::read(byte).is_some();
    }
    Level::read(byte).is_some()
}

/// Returns a runlevels field, or the action's default if the field is empty.
fn levels_meant(act: Act, levels: &[u8]) -> &[u8]
    ensures { result.now ≡ levels_meant act levels.now }
{
    match levels {
        [] => act.default_levels(),
        _ => levels,
    }
}

fn counts_any(act: Act, levels: &[u8]) -> bool
    ensures { result ≡ list_any (counts act) levels.now }
{
    levels.iter().any(|byte| counts(act, *byte))
}

/// Reports whether no character of the runlevels has a meaning.
fn counts_none(act: Act, levels: &[u8]) -> bool
    ensures { result ≡ counts_none act levels.now }
{
    !counts_any(act, levels_meant(act, levels))
}

/// Reports whether a character of the runlevels is ignored.
fn has_idle(act: Act, levels: &[u8]) -> bool
    ensures { result ≡ has_idle act levels.now }
{
    levels.iter().any(|byte| !counts(act, *byte))
}

/// Returns the process of an entry without a leading `+`, or no bytes if its action starts no process.
pub(crate) fn run_by(act: Act, process: &[u8]) -> &[u8]
    ensures { result.now ≡ run_by act process.now }
{
    if act.needs_process() {
        without_plus(process)
    } else {
        b""
    }
}

/// Reports whether a warning about a process applies.
fn holds_of(kind: Warning, process: &[u8]) -> bool
    ensures { result ≡ holds_of kind process.now }
{
    match kind {
        Warning::Return => ends_with(b'\r', process),
        Warning::At => begins_with(b'@', first_word(process)),
        Warning::ShellWord => is_shell_word(first_word(process)),
        Warning::Assignment => is_assigned(first_word(process)),
        Warning::Chain => operator_of(process) == Some(Operator::Chain),
        Warning::Pipe => operator_of(process) == Some(Operator::Pipe),
        Warning::Background => operator_of(process) == Some(Operator::Background),
        Warning::Unclosed => operator_of(process) == Some(Operator::Unclosed),
        Warning::Comment => has_comment(process),
        Warning::Early => expands_early(process),
        _ => false,
    }
}

/// Reports whether a warning about a line with these fields applies.
fn holds(act: Act, levels: &[u8], process: &[u8], kind: Warning) -> bool
    ensures { result ≡ holds act levels.now process.now kind }
{
    match kind {
        Warning::Runlevel => {
            (act.needs_process() || act == Act::Initdefault)
                && (!act.ignores_levels() && has_idle(act, levels))
        }
        Warning::IgnoredLevels => act.ignores_levels() && !levels.is_empty(),
        Warning::NoLevel => {
            act.needs_process()
                && !act.ignores_levels()
                && !act.is_ondemand()
                && counts_none(act, levels)
        }
        Warning::NoLetter => act.is_ondemand() && counts_none(act, levels),
        Warning::Boot => act == Act::Boot,
        Warning::SignalOnly => act == Act::Ctrlaltdel || act == Act::Kbrequest,
        _ => holds_of(kind, run_by(act, process)),
    }
}

/// Reports whether a line begins with a byte order mark.
fn begins_marked(line: &[u8]) -> bool
    ensures { result ≡ begins_marked line.now }
{
    line.starts_with(b"\xef\xbb\xbf")
}

/// Adds the warnings about one line of a file.
pub(crate) fn add_line<A: Allocator>(
    found: &mut Vec<LineWarning, A>,
    part: usize,
    line: usize,
    text: &[u8],
) -> Result<(), AllocError>
    ensures { OnOk result (found.new.items
        ≡ found.old.items ++ map (at_line part line) (warnings_of_line text.now)) }
{
    if begins_marked(text) {
        let kind = Warning::Marked;
        found.push(LineWarning { part, line, kind })?;
        return Ok(());
    }
    let text = without_blanks(text);
    if is_ignored(text) {
        return Ok(());
    }
    let Some(fields) = Fields::of(text) else {
        return Ok(());
    };
    let Some(act) = Act::read(fields.action) else {
        return Ok(());
    };
    add_kinds(found, part, line, act, &fields)
}

/// Adds the warnings that apply to an entry with this action and these fields.
fn add_kinds<A: Allocator>(
    found: &mut Vec<LineWarning, A>,
    part: usize,
    line: usize,
    act: Act,
    fields: &Fields,
) -> Result<(), AllocError>
    ensures { OnOk result (found.new.items
        ≡ found.old.items ++ map (at_line part line) (warnings_by act (fields_at fields.now))) }
{
    let mut rest: &[Warning] = &WARNINGS;
    while let Some((kind, others)) = rest.split_first() {
        if holds(act, fields.levels, fields.process, *kind) {
            found.push(LineWarning {
                part,
                line,
                kind: *kind,
            })?;
        }
        rest = others;
    }
    Ok(())
}

/// Reports whether a line is empty or a comment.
pub(crate) fn is_ignored(line: &[u8]) -> bool
    ensures { result ≡ is_ignored line.now }
{
    match line {
        [] => true,
        [first, ..] => *first == b'#',
    }
}

impl Warning {
    /// Returns the text of the warning: what is wrong, and what to do. The text of `Missing` follows the name of the
    /// program.
    pub fn words(self) -> &'static [u8] {
        match self {
            Warning::Runlevel => {
                b"a character of the runlevels has no meaning; name each level (2345)"
            }
            Warning::IgnoredLevels => { b"its action ignores the runlevels; leave the field empty" }
            Warning::NoLevel => b"it is never started: its runlevels name no level",
            Warning::NoLetter => b"it is never started: its runlevels have no letter A, B or C",
            Warning::Boot =>
                b"its child keeps running in every level; name its levels and use once",
            Warning::SignalOnly => b"it is never started: initd handles no signals",
            Warning::Return => {
                b"the line ends with a carriage return, which becomes part of its last word; remove it"
            }
            Warning::At => b"@ is read as part of the program's name; remove it",
            Warning::ShellWord => {
                b"it begins with a keyword or builtin of the shell, which is not a program; write a script"
            }
            Warning::Assignment => {
                b"it begins with an assignment, which is not a program; put env before it"
            }
            Warning::Chain => b"what follows ; or && or || is never run; write a script",
            Warning::Pipe => b"no signal reaches the programs of a pipeline; write a script",
            Warning::Background => {
                b"& makes the shell exit at once, and init takes its child as ended; remove it"
            }
            Warning::Unclosed => b"a quote or parenthesis is not closed, so the shell rejects it",
            Warning::Comment => {
                b"# does not begin a comment here: the program gets it as an argument; remove it"
            }
            Warning::Early => {
                b"init's shell expands the $ in double quotes before the inner shell does; use '..' or \\$"
            }
            Warning::Marked => b"it begins with a byte order mark; save the file without it",
            Warning::Missing => b"is in none of the folders; correct the line or the folders",
        }
    }
}

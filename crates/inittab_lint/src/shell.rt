//! How the shell interprets a process that init starts with `exec` (inittab(5)), if the effect differs from what the
//! line seems to say.

ghost use Rattle.std.specs.Prelude.{◌≡◌, ◌&&◌, ◌||◌, ◌==◌, not, true, false, IsTrue};
ghost use Rattle.std.specs.List.{list_all, list_any};
ghost use Rattle.std.specs.Str.{bytes_eq};
ghost use Rattle.text_lines.specs.Lines.{cut};
ghost use Rattle.inittab_lint.specs.Shell.{ends_with, expands, expands_early, flag_expands, is_command_flag};
ghost use Rattle.inittab_lint.specs.Shell.{is_expansion, is_shell, quote_expands, shell_expands};
ghost use Rattle.inittab_lint.specs.Shell.{begins_with, builtins, first_word, has_comment, has_hash, in_commands, innermost};
ghost use Rattle.inittab_lint.specs.Shell.{is_assigned, is_comment, is_deep, is_dollar, is_literal, is_name, is_name_byte};
ghost use Rattle.inittab_lint.specs.Shell.{is_part, is_shell_word, is_special, is_two, next_in, opened, operator_at};
ghost use Rattle.inittab_lint.specs.Shell.{operator_of, parts_after, reserved_words, special_builtins, starts_word, unclosed};

use arrayvec::ArrayVec;
use init_words::PROCESS_LIMIT;
use text_lines::{cut, is_blank, next_word, without_blanks};

/// The closing characters of the open quotes and parentheses of a process, outermost first.
type Parts = ArrayVec<u8, PROCESS_LIMIT>;

/// A shell operator whose effect changes because init puts `exec` before the process.
#[derive(Clone, Copy, PartialEq, Eq)]
pub enum Operator {
    /// `;`, `&&` or `||`: `exec` replaces the shell with the command before the operator, so the rest never runs.
    Chain,
    /// `|`: the child is the shell, and signals do not reach the programs that it runs.
    Pipe,
    /// `&`: the shell exits immediately.
    Background,
    /// No operator, but a quote or a parenthesis that is not closed: the shell rejects the process.
    Unclosed,
}

fn is_part(close: u8, part: Option<u8>) -> bool
    ensures { result ≡ is_part close part }
{
    match part {
        None => false,
        Some(byte) => byte == close,
    }
}

/// Reports whether the shell reads commands here: outside all quotes and parentheses, or directly in a parenthesis.
fn in_commands(part: Option<u8>) -> bool
    ensures { result ≡ in_commands part }
{
    match part {
        None => true,
        Some(close) => close == b')',
    }
}

/// Reports whether the text here is literal: within single quotes or backquotes.
fn is_literal(part: Option<u8>) -> bool
    ensures { result ≡ is_literal part }
{
    is_part(b'\'', part) || is_part(b'`', part)
}

/// Reports whether `$(` or `${` begins here.
fn is_dollar(part: Option<u8>, byte: u8, next: u8) -> bool
    ensures { result ≡ is_dollar part byte next }
{
    byte == b'$' && (next == b'(' || next == b'{') && !is_literal(part)
}

/// Returns the closing character of the quote, parenthesis or `${` that begins here.
fn opened(part: Option<u8>, byte: u8, next: u8) -> Option<u8>
    ensures { result ≡ opened part byte next }
{
    if is_dollar(part, byte, next) {
        return if next == b'(' { Some(b')') } else { Some(b'}') };
    }
    if byte == b'(' && in_commands(part) {
        return Some(b')');
    }
    if byte == b'`' && !is_literal(part) {
        return Some(byte);
    }
    let is_quote = byte == b'"' || byte == b'\'';
    if is_quote && (in_commands(part) || is_part(b'}', part)) {
        return Some(byte);
    }
    None
}

/// Reports whether the two bytes form a unit, such as an escape sequence.
fn is_two(part: Option<u8>, byte: u8, next: u8) -> bool
    ensures { result ≡ is_two part byte next }
{
    byte == b'\\' && !is_part(b'\'', part)
        || (is_dollar(part, byte, next) || in_commands(part) && is_redirection(byte, next))
}

/// Reports whether two bytes are `<&`, `>&` or `>|`.
fn is_redirection(byte: u8, next: u8) -> bool
    ensures { result ≡ (byte == 60 && next == 38 || byte == 62 && (next == 38 || next == 124)) }
{
    byte == b'<' && next == b'&' || byte == b'>' && (next == b'&' || next == b'|')
}

/// Reports whether a word begins after this byte.
fn starts_word(part: Option<u8>, byte: u8, next: u8) -> bool
    ensures { result ≡ starts_word part byte next }
{
    is_blank(byte)
        || (b";&|<>(".contains(&byte)
            || (is_dollar(part, byte, next) || byte == b')' && !is_part(b')', part)))
}

/// Reports whether a comment begins here.
fn is_comment(part: Option<u8>, start: bool, byte: u8) -> bool
    ensures { result ≡ is_comment part start byte }
{
    start && (byte == b'#' && in_commands(part))
}

/// Returns the operator that begins here.
fn operator_at(part: Option<u8>, byte: u8, next: u8) -> Option<Operator>
    ensures { result ≡ operator_at part byte next }
{
    if part.is_some() {
        return None;
    }
    match byte {
        b';' => Some(Operator::Chain),
        b'&' if next == b'&' => Some(Operator::Chain),
        b'&' => Some(Operator::Background),
        b'|' if next == b'|' => Some(Operator::Chain),
        b'|' => Some(Operator::Pipe),
        _ => None,
    }
}

/// Returns `Unclosed` if a quote or a parenthesis is open.
fn unclosed(part: Option<u8>) -> Option<Operator>
    ensures { result ≡ unclosed part }
{
    match part {
        Some(_) => Some(Operator::Unclosed),
        None => None,
    }
}

/// Returns the closing character of the innermost open quote or parenthesis.
fn innermost(parts: &Parts) -> Option<u8>
    ensures { result ≡ innermost parts.now.items }
{
    parts.as_slice().last().copied()
}

fn next_in(text: &[u8]) -> u8
    ensures { result ≡ next_in text.now }
{
    text.first().copied().unwrap_or(0)
}

/// Updates the open quotes and parentheses for these bytes. Returns false if they are nested too deeply.
fn read_on(parts: &mut Parts, byte: u8, next: u8) -> bool
    ensures deep { result ≡ not (is_deep parts.old.items byte next) }
    ensures parts { IsTrue result → parts.new.items ≡ parts_after parts.old.items byte next }
{
    let part = innermost(parts);
    if is_part(byte, part) {
        parts.pop();
        return true;
    }
    match opened(part, byte, next) {
        Some(close) => parts.try_push(close).is_ok(),
        None => true,
    }
}

/// Returns the first operator of a process outside quotes, parentheses, `${..}` and comments.
pub fn operator_of(process: &[u8]) -> Option<Operator>
    ensures { result ≡ operator_of process.now }
{
    let mut parts: Parts = ArrayVec::new();
    let mut was_read = false;
    let mut start = true;
    let mut rest = process;
    while let Some((byte, after)) = rest.split_first() {
        rest = after;
        if was_read {
            was_read = false;
            continue;
        }
        let part = innermost(&parts);
        let next = next_in(after);
        if is_comment(part, start, *byte) {
            return unclosed(part);
        }
        let found = operator_at(part, *byte, next);
        if found.is_some() {
            return found;
        }
        if !read_on(&mut parts, *byte, next) {
            return None;
        }
        was_read = is_two(part, *byte, next);
        start = starts_word(part, *byte, next);
    }
    unclosed(innermost(&parts))
}

/// Reports whether a process that contains this byte is started with the shell.
fn is_special(byte: u8) -> bool
    ensures { result ≡ is_special byte }
{
    b"~`!$^&*()=|\\{}[];\"'<>?".contains(&byte)
}

pub(crate) fn has_special(process: &[u8]) -> bool
    ensures { result ≡ list_any is_special process.now }
{
    process.iter().any(|byte| is_special(*byte))
}

/// Reports whether a word begins with `#`.
fn has_hash(process: &[u8]) -> bool
    ensures { result ≡ has_hash true process.now }
{
    let mut before = true;
    let mut rest = process;
    while let Some((byte, after)) = rest.split_first() {
        if before && *byte == b'#' {
            return true;
        }
        before = is_blank(*byte);
        rest = after;
    }
    false
}

/// Reports whether a word begins with `#` but does not start a comment, because no shell reads the process.
pub(crate) fn has_comment(process: &[u8]) -> bool
    ensures { result ≡ has_comment process.now }
{
    !has_special(process) && has_hash(process)
}

/// Returns the first word of a process, up to a blank.
pub(crate) fn first_word(process: &[u8]) -> &[u8]
    ensures { result.now ≡ first_word process.now }
{
    match next_word(process) {
        Some((word, _)) => word,
        None => b"",
    }
}

pub(crate) fn is(word: &[u8], known: &[u8]) -> bool
    ensures { result ≡ bytes_eq word.now known.now }
{
    word == known
}

/// Reports whether a word has a meaning to the shell and is not a program.
pub(crate) fn is_shell_word(word: &[u8]) -> bool
    ensures { result ≡ is_shell_word word.now }
{
    begins_with(b'(', word) || (is_reserved(word) || (is_special_builtin(word) || is_builtin(word)))
}

/// Reports whether a word is a reserved word of sh(1).
fn is_reserved(word: &[u8]) -> bool
    ensures { result ≡ list_any (bytes_eq word.now) reserved_words }
{
    is(word, b"if")
        || is(word, b"then")
        || is(word, b"elif")
        || is(word, b"else")
        || is(word, b"fi")
        || is(word, b"for")
        || is(word, b"while")
        || is(word, b"until")
        || is(word, b"do")
        || is(word, b"done")
        || is(word, b"case")
        || is(word, b"esac")
        || is(word, b"in")
        || is(word, b"function")
        || is(word, b"{")
        || is(word, b"}")
        || is(word, b"!")
        || is(word, b"[[")
}

/// Reports whether a word is a special builtin of sh(1), or of another shell.
fn is_special_builtin(word: &[u8]) -> bool
    ensures { result ≡ list_any (bytes_eq word.now) special_builtins }
{
    is(word, b".")
        || is(word, b":")
        || is(word, b"source")
        || is(word, b"exec")
        || is(word, b"eval")
        || is(word, b"exit")
        || is(word, b"return")
        || is(word, b"break")
        || is(word, b"continue")
        || is(word, b"export")
        || is(word, b"readonly")
        || is(word, b"local")
        || is(word, b"set")
        || is(word, b"unset")
        || is(word, b"shift")
        || is(word, b"trap")
        || is(word, b"times")
}

/// Reports whether a word is another builtin of sh(1) that is not a program.
fn is_builtin(word: &[u8]) -> bool
    ensures { result ≡ list_any (bytes_eq word.now) builtins }
{
    is(word, b"cd")
        || is(word, b"command")
        || is(word, b"wait")
        || is(word, b"read")
        || is(word, b"ulimit")
        || is(word, b"umask")
        || is(word, b"type")
        || is(word, b"hash")
        || is(word, b"getopts")
        || is(word, b"alias")
        || is(word, b"unalias")
        || is(word, b"jobs")
        || is(word, b"fg")
        || is(word, b"bg")
        || is(word, b"fc")
}

pub(crate) fn begins_with(mark: u8, text: &[u8]) -> bool
    ensures { result ≡ begins_with mark text.now }
{
    match text {
        [] => false,
        [byte, ..] => *byte == mark,
    }
}

pub(crate) fn ends_with(mark: u8, text: &[u8]) -> bool
    ensures { result ≡ ends_with mark text.now }
{
    match text.last() {
        Some(byte) => *byte == mark,
        None => false,
    }
}

fn is_name_byte(byte: u8) -> bool
    ensures { result ≡ is_name_byte byte }
{
    byte.is_ascii_alphanumeric() || byte == b'_'
}

fn are_name_bytes(text: &[u8]) -> bool
    ensures { result ≡ list_all is_name_byte text.now }
{
    text.iter().all(|byte| is_name_byte(*byte))
}

fn is_name(text: &[u8]) -> bool
    ensures { result ≡ is_name text.now }
{
    !text.is_empty() && are_name_bytes(text)
}

/// Reports whether a word begins with a name and `=`.
pub(crate) fn is_assigned(word: &[u8]) -> bool
    ensures { result ≡ is_assigned word.now }
{
    match cut(b'=', word) {
        Some((name, _)) => is_name(name),
        None => false,
    }
}

/// Reports whether the shell expands a `$` before this byte.
fn is_expansion(byte: u8) -> bool
    ensures { result ≡ is_expansion byte }
{
    is_name_byte(byte) || b"{(@*#?-$!".contains(&byte)
}

/// Reports whether the shell expands a `$` in the text up to the closing double quote.
fn expands(text: &[u8]) -> bool
    ensures { result ≡ expands false text.now }
{
    let mut was_read = false;
    let mut rest = text;
    while let Some((byte, after)) = rest.split_first() {
        rest = after;
        if was_read {
            was_read = false;
            continue;
        }
        if *byte == b'"' {
            return false;
        }
        if *byte == b'$' && is_expansion(next_in(after)) {
            return true;
        }
        was_read = *byte == b'\\';
    }
    false
}

fn quote_expands(text: &[u8]) -> bool
    ensures { result ≡ quote_expands text.now }
{
    match text {
        [] => false,
        [byte, rest @ ..] => *byte == b'"' && expands(rest),
    }
}

fn is_command_flag(word: &[u8]) -> bool
    ensures { result ≡ is_command_flag word.now }
{
    begins_with(b'-', word) && ends_with(b'c', word)
}

fn is_shell(word: &[u8]) -> bool
    ensures { result ≡ is_shell word.now }
{
    !has_special(word) && word.ends_with(b"sh")
}

/// Reports whether the text is a flag such as `-c`, followed by a command in double quotes that init's shell expands.
fn flag_expands(text: &[u8]) -> bool
    ensures { result ≡ flag_expands (cut 32 text.now) }
{
    match cut(b' ', text) {
        Some((flag, behind)) => is_command_flag(flag) && quote_expands(without_blanks(behind)),
        None => false,
    }
}

/// Reports whether the text is the name of a shell, followed by a flag and command as in `flag_expands`.
fn shell_expands(text: &[u8]) -> bool
    ensures { result ≡ shell_expands (cut 32 text.now) }
{
    match cut(b' ', text) {
        Some((shell, behind)) => is_shell(shell) && flag_expands(without_blanks(behind)),
        None => false,
    }
}

/// Reports whether the process runs a shell with a command in double quotes that init's shell expands first.
pub(crate) fn expands_early(process: &[u8]) -> bool
    ensures { result ≡ expands_early process.now }
{
    let mut parts: Parts = ArrayVec::new();
    let mut was_read = false;
    let mut start = true;
    let mut rest = process;
    while let Some((byte, after)) = rest.split_first() {
        let here = rest;
        rest = after;
        if was_read {
            was_read = false;
            continue;
        }
        let part = innermost(&parts);
        let next = next_in(after);
        if is_comment(part, start, *byte) {
            return false;
        }
        if start && (in_commands(part) && shell_expands(here)) {
            return true;
        }
        if !read_on(&mut parts, *byte, next) {
            return false;
        }
        was_read = is_two(part, *byte, next);
        start = starts_word(part, *byte, next);
    }
    false
}

//! Builds the command that executes a process text: by `sh`, or directly, split into words.

ghost use Rattle.std.specs.Prelude.{◌≡◌, ◌++◌, ◌∷◌, [], codes, IfOk, OnOk};
ghost use Rattle.std.specs.Str.{IsUtf8};
ghost use Rattle.text_lines.specs.Lines.{words_of};
ghost use Rattle.host_system.specs.Commands.{is_shell_byte, launched, logged, needs_shell, words_at, words_in, words_logged, words_run};

use crate::launches::{Launch, first_command};
use host_files::boxed;
use std::alloc::{AllocError, Allocator};
use std::process::Command;
use std::str;
use text_lines::next_word;

/// A command on the heap, because it has many fields.
pub(crate) type BoxedCommand<A> = Box<Command<A>, A>;

/// The characters for which a process is started by a shell.
const SHELL_BYTES: &[u8] = b"~`!$^&*()=|\\{}[];\"'<>?";

fn is_shell_byte(byte: u8) -> bool
    ensures { result ≡ is_shell_byte byte }
{
    SHELL_BYTES.contains(&byte)
}

/// Returns whether a process text is started by a shell, because it has a character that a shell interprets.
pub(crate) fn needs_shell(text: &[u8]) -> bool
    ensures { result ≡ needs_shell text.now }
{
    text.iter().any(|byte| is_shell_byte(*byte))
}

/// Returns the command that starts a process text (inittab(5)): a shell that executes it, if it has a character that a
/// shell interprets, otherwise its words, split at blanks and tabs. `None` if the text has no word.
pub(crate) fn command_of<A: Allocator + Copy>(
    alloc: A,
    launch: Launch,
    text: &str,
) -> Result<Option<BoxedCommand<A>>, AllocError>
    ensures { IfOk result (λ command.
        words_at command ≡ launched launch.groups launch.delay (words_run text.now)) }
{
    if needs_shell(text.as_bytes()) {
        let line = format!(in alloc; "exec {text}")?;
        return Ok(Some(shell_command(alloc, launch, line.as_str())?));
    }
    plain_command(alloc, launch, text)
}

/// Returns the command that starts a process text like `command_of`, but always by a shell, which appends the output to
/// the file at this path and then becomes the process.
pub(crate) fn logged_command<A: Allocator + Copy>(
    alloc: A,
    launch: Launch,
    log: &str,
    text: &str,
) -> Result<Option<BoxedCommand<A>>, AllocError>
    ensures { IfOk result (λ command.
        words_at command
        ≡ launched launch.groups launch.delay (words_logged log.now text.now)) }
{
    if !needs_shell(text.as_bytes()) {
        return logged_words(alloc, launch, log, text);
    }
    let line = format!(in alloc; "exec >>\"$0\" 2>&1\nexec {text}")?;
    let mut command = shell_command(alloc, launch, line.as_str())?;
    add_word(&mut command, log)?;
    Ok(Some(command))
}

/// Returns the command of a text's words, started by a shell that appends their output to the file at this path.
fn logged_words<A: Allocator + Copy>(
    alloc: A,
    launch: Launch,
    log: &str,
    text: &str,
) -> Result<Option<BoxedCommand<A>>, AllocError>
    ensures { IfOk result (λ command.
        words_at command
        ≡ launched launch.groups launch.delay (logged log.now (words_of text.now))) }
{
    let Some((program, rest)) = next_word(text.as_bytes()) else {
        return Ok(None);
    };
    let mut command = shell_command(alloc, launch, "exec \"$@\" >>\"$0\" 2>&1")?;
    add_word(&mut command, log)?;
    add_word(&mut command, text_of(program))?;
    add_words(&mut command, rest)?;
    Ok(Some(command))
}

/// Returns the command that executes a line in a shell.
pub(crate) fn shell_command<A: Allocator + Copy>(
    alloc: A,
    launch: Launch,
    line: &str,
) -> Result<BoxedCommand<A>, AllocError>
    ensures { IfOk result (λ command. words_in command.value
        ≡ launched launch.groups launch.delay (codes "sh" ∷ codes "-c" ∷ line.now ∷ [])) }
{
    let mut command = first_command(alloc, launch, "sh")?;
    add_word(&mut command, "-c")?;
    add_word(&mut command, line)?;
    Ok(command)
}

/// Returns the command of a text's words.
fn plain_command<A: Allocator + Copy>(
    alloc: A,
    launch: Launch,
    text: &str,
) -> Result<Option<BoxedCommand<A>>, AllocError>
    ensures { IfOk result (λ command.
        words_at command ≡ launched launch.groups launch.delay (words_of text.now)) }
{
    let Some((program, rest)) = next_word(text.as_bytes()) else {
        return Ok(None);
    };
    let mut command = first_command(alloc, launch, text_of(program))?;
    add_words(&mut command, rest)?;
    Ok(Some(command))
}

/// Returns the command of a program without arguments.
pub(crate) fn bare_command<A: Allocator + Copy>(
    alloc: A,
    program: &str,
) -> Result<BoxedCommand<A>, AllocError>
    ensures { IfOk result (λ command. words_in command.value ≡ program.now ∷ []) }
{
    boxed(alloc, Command::new(alloc, program)?)
}

/// Adds the words of a text to a command's arguments. If memory runs out, some of the words may have been added.
fn add_words<A: Allocator + Copy>(command: &mut Command<A>, text: &[u8]) -> Result<(), AllocError>
    requires { IsUtf8 text.now }
    ensures { OnOk result (words_in command.new ≡ words_in command.old ++ words_of text.now) }
{
    let mut rest = text;
    while let Some((word, more)) = next_word(rest) {
        add_word(command, text_of(word))?;
        rest = more;
    }
    Ok(())
}

pub(crate) fn add_word<A: Allocator + Copy>(
    command: &mut Command<A>,
    word: &str,
) -> Result<(), AllocError>
    ensures { OnOk result (words_in command.new ≡ words_in command.old ++ word.now ∷ []) }
{
    command.arg(word)?;
    Ok(())
}

/// Returns bytes that are UTF-8 as a text.
fn text_of(bytes: &[u8]) -> &str
    requires { IsUtf8 bytes.now }
    ensures { result.now ≡ bytes.now }
{
    match str::from_utf8(bytes) {
        Ok(text) => text,
        Err(_) => unreachable!(),
    }
}

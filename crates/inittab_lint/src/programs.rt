//! The program that a line of an inittab starts.

ghost use Rattle.std.specs.Prelude.{◌≡◌};
ghost use Rattle.std.specs.List.{list_any};
ghost use Rattle.inittab_lint.specs.Programs.{is_read, named_by, program_of};
ghost use Rattle.inittab_lint.specs.Shell.{is_special};

use crate::shell::{begins_with, first_word, has_special, is_assigned, is_shell_word};
use crate::traps::{is_ignored, run_by};
use init_words::Act;
use inittab_text::Fields;
use text_lines::without_blanks;

/// Reports whether the word is not just the name of a program: the shell interprets it, or it begins with `@`.
fn is_read(word: &[u8]) -> bool
    ensures { result ≡ is_read word.now }
{
    has_special(word) || is_shell_word(word) || is_assigned(word) || begins_with(b'@', word)
}

fn named_by(word: &[u8]) -> &[u8]
    ensures { result.now ≡ named_by word.now }
{
    if is_read(word) { b"" } else { word }
}

/// Returns the program that a line starts, which is the first word of its process. Returns no bytes if the line has no
/// process or that word is not just the name of a program.
pub fn program_of(line: &[u8]) -> &[u8]
    ensures { result.now ≡ program_of line.now }
{
    let text = without_blanks(line);
    if is_ignored(text) {
        return b"";
    }
    let Some(fields) = Fields::of(text) else {
        return b"";
    };
    let Some(act) = Act::read(fields.action) else {
        return b"";
    };
    named_by(first_word(run_by(act, fields.process)))
}

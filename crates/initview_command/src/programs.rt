//! Searches folders for the programs of an inittab.

ghost use Rattle.std.specs.Prelude.{◌≡◌, true, IfOk, OnOk};
ghost use Rattle.std.specs.List.{list_all};
ghost use Rattle.initview_command.specs.Words.{is_missing};

use crate::growing::LiveTraces;
use init_words::{Memory, Part};
use inittab_lint::{LineWarning, Warning, program_of};
use std::alloc::Global;
use std::str;
use text_lines::first_line;

/// Reports whether the program is in none of the folders. Does not search for a name that is not UTF-8.
fn is_missing<G: LiveTraces>(
    growing: &G,
    alloc: Global,
    folders: &str,
    program: &[u8],
) -> Result<bool, Memory> {
    match str::from_utf8(program) {
        Ok("") | Err(_) => Ok(false),
        Ok(program) => Ok(!growing.has_program(alloc, folders, program)?),
    }
}

/// Adds a warning for each line of a file whose program is in none of the folders.
fn add_text<G: LiveTraces>(
    found: &mut Vec<LineWarning>,
    growing: &G,
    alloc: Global,
    folders: &str,
    part: usize,
    text: &[u8],
) -> Result<(), Memory>
    requires { list_all is_missing found.old.items ≡ true }
    ensures { OnOk result (list_all is_missing found.new.items ≡ true) }
{
    let mut rest = text;
    let mut line = 0usize;
    while !rest.is_empty() {
        let (text, more) = first_line(rest);
        line = line.saturating_add(1);
        if is_missing(growing, alloc, folders, program_of(text))? {
            let kind = Warning::Missing;
            found.push(LineWarning { part, line, kind })?;
        }
        rest = more;
    }
    Ok(())
}

/// Returns the warnings about the lines of files whose program is in none of the folders.
pub(crate) fn missing<G: LiveTraces>(
    growing: &G,
    alloc: Global,
    folders: &str,
    files: &[Part],
) -> Result<Vec<LineWarning>, Memory>
    ensures { IfOk result (λ found. list_all is_missing found.items ≡ true) }
{
    let mut found = Vec::new(alloc);
    let mut rest = files;
    let mut number = 0usize;
    while let Some((file, others)) = rest.split_first() {
        add_text(&mut found, growing, alloc, folders, number, &file.bytes)?;
        number = number.saturating_add(1);
        rest = others;
    }
    Ok(found)
}

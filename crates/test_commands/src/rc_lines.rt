//! Command lines of rc, with a scripted host and the folders of a row: the calls that a run makes to its host, and
//! output that can't be written.

use crate::rows::{given_host, or_difference, output_of, writer_of};
use program_io::Reports;
use rc_command::{Folders, LevelFiles, run_words};
use std::alloc::Global;
use std::io;
use std::io::ErrorKind;
use test_support::{calls_of, line_words};

/// The scripts in the folders `k/rc3.d` and so on, each after its level. The contracts do not know them.
#[derive(Drop)]
struct RowFolders<'r> {
    scripts: &'r str,
}

impl<'r> Folders for RowFolders<'r> {
    ghost use Rattle.std.specs.Prelude.{None};

    ghost names_at = { λ _ _. None };

    fn names(&self, alloc: Global, path: &str) -> io::Result<Vec<String>> {
        let mut names = Vec::new(alloc);
        for script in self.scripts.split_ascii_whitespace() {
            if let Some((level, name)) = script.split_once('/') {
                let folder = format!(in alloc; "k/rc{level}.d")?;
                if folder.as_str() == path {
                    names.push(String::from_str(alloc, name)?)?;
                }
            }
        }
        Ok(names)
    }
}

/// The file `level`, if it exists. The contracts do not know it.
#[derive(Drop)]
struct LevelFile {
    text: Option<Vec<u8>>,
}

impl LevelFiles for LevelFile {
    ghost use Rattle.std.specs.Prelude.{None};

    ghost file_at = { λ _ _. None };

    fn read(&self, alloc: Global, _path: &str) -> io::Result<Option<Vec<u8>>> {
        match &self.text {
            Some(text) => Ok(Some(Vec::from_slice(alloc, text.as_slice())?)),
            None => Ok(None),
        }
    }

    fn put(&mut self, alloc: Global, path: &str, text: &[u8]) -> io::Result<()> {
        if path != "level" {
            return Err(io::Error::from(ErrorKind::NotFound));
        }
        self.text = Some(Vec::from_slice(alloc, text)?);
        Ok(())
    }
}

/// Returns the part of the report that is checked: its first bytes if the expected text ends with a star.
fn asked_of<'t>(err: &'t [u8], want: &'t str) -> (&'t [u8], &'t [u8]) {
    match want.split_once('*') {
        Some((front, _)) => (err.get(..front.len()).unwrap_or(err), front.as_bytes()),
        None => (err, want.as_bytes()),
    }
}

/// Returns the difference between the run of a row and the row; empty if there is none.
pub(crate) fn difference_of(alloc: Global, row: &[&str]) -> Option<String> {
    let [line, scripts, given, writer, status, out, err, calls, file] = *row else {
        return None;
    };
    let mut host = given_host(alloc, given)?;
    let mut level = LevelFile { text: None };
    let folders = RowFolders { scripts };
    let words = line_words(alloc, line.trim_ascii_end()).ok()?;
    let mut lines = writer_of(alloc, writer)?;
    let mut reports = Reports::to(Vec::<u8>::new(alloc));
    let ended = run_words(
        &mut *host,
        &folders,
        &mut level,
        alloc,
        words,
        &mut lines,
        &mut reports,
    );
    let ended = format!(in alloc; "status {ended}\n").ok()?;
    let made = calls_of(alloc, &host)?;
    let held = level.text.unwrap_or(Vec::new(alloc));
    let out = output_of(alloc, "rc", out).ok()?;
    let (err, reported) = asked_of(reports.writer(), err);
    let told = String::new(alloc);
    let printed = lines.taken.as_slice();
    let told = or_difference(
        alloc,
        told,
        "standard output",
        printed,
        lines.front_of(&out),
    )?;
    let told = or_difference(alloc, told, "standard error", err, reported)?;
    let told = or_difference(alloc, told, "its end", ended.as_bytes(), status.as_bytes())?;
    let told = or_difference(alloc, told, "its calls", made.as_bytes(), calls.as_bytes())?;
    or_difference(
        alloc,
        told,
        "the file of the level",
        held.as_slice(),
        file.as_bytes(),
    )
}

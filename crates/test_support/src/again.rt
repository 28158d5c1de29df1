//! Reruns a test as a child process, with its standard streams redirected to files, and a given PATH.

use std::alloc::Global;
use std::process::{Command, Processes};
use std::rt::{Env, Files};
use std::{env, fs, io};

/// A rerun of a test as a child process, and its expected output.
pub struct Again {
    /// The name of the test, without the name of its crate.
    pub test: &'static str,
    /// The search path for programs (PATH).
    pub path: &'static str,
    /// The files to which its standard output and its standard error go.
    pub out: &'static str,
    pub err: &'static str,
    /// The files to check, with the lines with which each must begin. A line may have one star, which matches any
    /// characters.
    pub said: &'static [(&'static str, &'static str)],
}

/// Reports whether a test started this run.
pub fn is_again<R: Env + Alloc>(rt: &R) -> bool {
    env::var(rt, "AGAIN").is_ok()
}

/// Returns a command line that runs the test again.
fn line_of<R: Env + Alloc>(rt: &R, alloc: Global, again: &Again) -> io::Result<String> {
    let Some(program) = env::args(rt)?.next() else {
        return Err(io::Error::other("no program"));
    };
    let Again {
        test,
        path,
        out,
        err,
        ..
    } = again;
    Ok(format!(in alloc; "AGAIN=1 PATH={path} exec {program} {test} > {out} 2> {err}")?)
}

fn run_line<R: Processes>(rt: &R, command: &mut Command, line: &str) -> io::Result<()> {
    command.arg("-c")?.arg(line)?.status(rt)?;
    Ok(())
}

/// Reports whether a line matches the expected line, in which one star matches any characters.
fn is_line(line: &str, want: &str) -> bool {
    match want.split_once('*') {
        Some((start, end)) => line.starts_with(start) && line.ends_with(end),
        None => line == want,
    }
}

/// Reports whether a text begins with these lines, and has nothing after them except the end of a test run.
fn has_lines(text: &str, want: &str) -> bool {
    let mut lines = text.lines();
    for line in want.lines() {
        match lines.next() {
            Some(said) if is_line(said, line) => {}
            _ => return false,
        }
    }
    true
}

/// Reports whether a file begins with these lines.
fn is_text<R: Files + Alloc>(rt: &R, path: &str, want: &str) -> bool {
    match fs::read_to_string(rt, path) {
        Ok(text) => has_lines(text.as_str(), want) && fs::remove_file(rt, path).is_ok(),
        Err(_) => false,
    }
}

fn are_texts<R: Files + Alloc>(rt: &R, said: &[(&str, &str)]) -> bool {
    for (path, want) in said {
        if !is_text(rt, path, want) {
            return false;
        }
    }
    true
}

/// Runs the test again, and reports whether it wrote the expected text.
pub fn is_said<R: Processes + Files + Env + Alloc>(
    rt: &R,
    alloc: Global,
    again: &Again,
) -> io::Result<bool> {
    let line = line_of(rt, alloc, again)?;
    let mut command = Command::new(alloc, "sh")?;
    run_line(rt, &mut command, line.as_str())?;
    Ok(are_texts(rt, again.said))
}

/// A path in which the system's programs are found.
pub const SYSTEM: &str = "/bin:/usr/bin";

//! A run of `rc` on the operating system.

ghost use Rattle.std.specs.Prelude.{IsTrue};
ghost use Rattle.initd_laws.specs.Signals.{keeps_to_children, numbers_are_new};

use crate::folders::Folders;
use crate::hosts::RcHost;
use crate::level_files::LevelFiles;
use crate::running::run_words;
use program_io::Reporter;
use std::alloc::Global;
use std::fs::File;
use std::io::Write;
use std::process::Processes;
use std::rt::{Clock, Files};

/// Runs `rc` with these arguments, as [`run_words`] does, on the operating system. Returns the exit status.
///
/// If the kernel returns no number of an unreaped child from fork(2), `rc` waits for and signals only its own children.
pub fn run_on_system<R, F, L, W, E>(
    host: &mut RcHost<R>,
    folders: &F,
    levels: &mut L,
    alloc: Global,
    words: Vec<String>,
    out: &mut W,
    err: &mut E,
) -> u8
where
    R: Processes + Files<File = File> + Clock + Print + Eprint + Clone + Drop,
    F: Folders,
    L: LevelFiles,
    W: Write,
    E: Reporter,
    ensures targets { IsTrue (numbers_are_new host.new.asked)
        → IsTrue (keeps_to_children host.new.asked) }
{
    let status = run_words(host, folders, levels, alloc, words, out, err);
    let _calls = host.calls();
    status
}

//! The commands about inittabs: `lint`, `diff` and `plan`.

ghost use Rattle.std.specs.Prelude.{◌≡◌, ◌++◌, ◌∷◌, [], map, drop, ℕ, List, IfOk, IfErr, OnOk};
ghost use Rattle.initview_command.specs.Words.{DEVICE_FAULT, IsTextAt, NamedText};
ghost use Rattle.initview_command.specs.Asking.{path_texts};
ghost use Rattle.initview_command.specs.Refusals.{refusal_status};
ghost use Rattle.initview_command.specs.Showing.{answer_value};
ghost use Rattle.initview_command.specs.Tables.{Answers, AreFiles, AreFilesAt, AreNone, FailsWith, IsAnswer, IsRefused, NoneOf, found_status, level_asked, lint_by, old_of, plan_by, table_in};

use crate::asking::{Paths, TableQuestion};
use crate::growing::LiveTraces;
use crate::programs::missing;
use crate::showing::{Answer, Remarks, unpacker};
use crate::telling::Refusal;
use init_words::{Level, Memory, Part};
use inittab_lint::LineWarning;
use inittab_text::{PartFault, Table, TableFault, read_parts};
use initview_lines::{Findings, Line, change_lines, lint_parts, plan_lines};
use program_io::{DONE, REFUSED, Reporter, Texts};
use std::alloc::{AllocError, Global};
use std::io;

/// Reads the file at a path and appends it to the others.
fn add_file<T: Texts>(texts: &T, alloc: Global, path: &str, parts: &mut Vec<Part>) -> io::Result<()>
    ensures { OnOk result ((text : List ℕ) × IsTextAt (T.text_at texts.now) path.now text
        × (parts.new.items
        ≡ parts.old.items ++ record { name = path.now; bytes = text } ∷ [])) }
{
    let bytes = texts.read(alloc, path)?;
    let name = String::from_str(alloc, path)?;
    parts.push(Part { name, bytes })?;
    Ok(())
}

/// Reads the files at the paths, in order.
fn read_named<'a, T: Texts>(
    texts: &T,
    alloc: Global,
    paths: &[&'a str],
) -> Result<Vec<Part>, Refusal<'a>>
    ensures files { IfOk result (λ parts.
        AreFilesAt (T.text_at texts.now) (map (λ path. path.now) paths.now) parts.items) }
    ensures refused { IfErr result (λ refusal. refusal_status refusal ≡ DEVICE_FAULT) }
{
    let mut parts = Vec::new(alloc);
    for path in paths {
        if let Err(error) = add_file(texts, alloc, *path, &mut parts) {
            return Err(Refusal::Unread(*path, error));
        }
    }
    Ok(parts)
}

/// Refuses the first file that is compressed. The files are those at the paths.
fn refuse_packed<'a>(paths: &[&'a str], parts: &[Part]) -> Result<(), Refusal<'a>>
    ensures { IfErr result (λ refusal. refusal_status refusal ≡ DEVICE_FAULT) }
{
    for (index, part) in parts.iter().enumerate() {
        if let (Some(unpacker), Some(path)) = (unpacker(&part.bytes), paths.get(index)) {
            return Err(Refusal::PackedTable(*path, unpacker));
        }
    }
    Ok(())
}

/// Reads the files at the paths, in order, and then the files of a folder, if one is given.
pub(crate) fn read_files<'a, T: Texts, G: LiveTraces>(
    texts: &T,
    growing: &G,
    alloc: Global,
    paths: &Paths<'_, 'a>,
) -> Result<Vec<Part>, Refusal<'a>>
    ensures files { IfOk result (λ parts.
        AreFiles (T.text_at texts.now) (path_texts paths.now) parts.items) }
    ensures refused { IfErr result (λ refusal. refusal_status refusal ≡ DEVICE_FAULT) }
{
    let mut parts = read_named(texts, alloc, paths.files)?;
    refuse_packed(paths.files, &parts)?;
    match paths.folder {
        None => Ok(parts),
        Some(folder) => match growing.add_folder(alloc, folder, &mut parts) {
            Ok(()) => Ok(parts),
            Err(fault) => Err(Refusal::Folder(fault)),
        },
    }
}

/// Returns the exit status for the result: 1 for faults, 2 for warnings only, otherwise 0.
fn found_status(found: Findings) -> u8
    ensures { result ≡ found_status found }
{
    match found {
        Findings::Nothing => DONE,
        Findings::Faults => REFUSED,
        Findings::Warnings => 2,
    }
}

/// Adds a remark that init ignores lines of an inittab, with the command that lists them.
fn tell_faulty(parts: &[Part], faults: &[PartFault], remarks: &mut Remarks) {
    let count = faults.len();
    if let (Some(part), true) = (parts.first(), count > 0) {
        let name = part.name.as_str();
        writeln!(
            remarks,
            "initview: {name}: lines ignored: {count}; run initview lint to list them"
        );
    }
}

/// Returns the table of the files.
pub(crate) fn table_in(
    alloc: Global,
    parts: &[Part],
    remarks: &mut Remarks,
) -> Result<Table, TableFault>
    ensures table { IfOk result (λ table. table ≡ table_in parts.now) }
    ensures fault { IfErr result (FailsWith (AreNone parts.now)) }
{
    match read_parts(alloc, parts) {
        Ok((table, faults)) => {
            tell_faulty(parts, &faults, remarks);
            Ok(table)
        }
        Err(TableFault::Memory) => Err(TableFault::Memory),
        Err(TableFault::TooLong) => Err(TableFault::TooLong),
        Err(TableFault::Parts) => Err(TableFault::Parts),
    }
}

/// Returns the level for a command: the given level, or else the table's default, or else S.
pub(crate) fn level_asked(level: Option<Level>, table: &Table) -> Level
    ensures { result ≡ level_asked level table.now }
{
    match level {
        Some(level) => level,
        None => table.default_level().unwrap_or(Level::S),
    }
}

/// Returns the faults and warnings of an inittab, including the given warnings, and the exit status.
fn lint_answer(alloc: Global, parts: &[Part], missing: &[LineWarning]) -> Result<Answer, TableFault>
    ensures told { IfOk result (λ given. (given.0.items ≡ (lint_by parts.now missing.now).0)
        × (given.1 ≡ (lint_by parts.now missing.now).1)) }
    ensures fault { IfErr result (FailsWith (AreNone parts.now)) }
{
    match lint_parts(alloc, parts, missing) {
        Ok((lines, found)) => Ok((lines, found_status(found))),
        Err(TableFault::Memory) => Err(TableFault::Memory),
        Err(TableFault::TooLong) => Err(TableFault::TooLong),
        Err(TableFault::Parts) => Err(TableFault::Parts),
    }
}

/// Returns the files after the first one.
fn after_first(parts: &[Part]) -> &[Part]
    ensures { result.now ≡ drop 1 parts.now }
{
    match parts {
        [] => parts,
        [_, others @ ..] => others,
    }
}

/// Returns the files of the old inittab of a diff as a slice. To do so, it swaps the first two files, because both
/// inittabs continue in the files after them.
#[tactic(auto, using(crate::proofs::Files::old_short, crate::proofs::Files::old_swapped))]
fn old_of(parts: &mut [Part]) -> &[Part]
    ensures { result.now ≡ old_of parts.old }
{
    if parts.len() < 2 {
        return parts;
    }
    parts.swap(0, 1);
    after_first(parts)
}

/// Returns the lines for the entries that init starts on the way to a level.
pub(crate) fn plan_of(
    alloc: Global,
    level: Option<Level>,
    table: &Table,
) -> Result<Vec<Line>, Memory>
    ensures { IfOk result (λ lines. lines.items ≡ plan_by level table.now) }
{
    Ok(plan_lines(alloc, level_asked(level, table), table)?)
}

/// Returns the old and the new table of a diff.
pub(crate) fn old_and_new(
    alloc: Global,
    parts: &mut [Part],
    remarks: &mut Remarks,
) -> Result<(Table, Table), TableFault>
    ensures tables { IfOk result (λ both. (both.0 ≡ table_in (old_of parts.old))
        × (both.1 ≡ table_in (drop 1 parts.old))) }
    ensures fault { IfErr result (FailsWith (NoneOf parts.old)) }
{
    let new = table_in(alloc, after_first(parts), remarks)?;
    let old = table_in(alloc, old_of(parts), remarks)?;
    Ok((old, new))
}

/// Answers a question about inittabs, and returns the exit status.
fn answer<G: LiveTraces>(
    growing: &G,
    alloc: Global,
    folders: &str,
    question: TableQuestion,
    parts: &mut [Part],
    remarks: &mut Remarks,
) -> Result<Answer, TableFault>
    ensures told { IfOk result (λ given.
        IsAnswer question parts.old given.0.items given.1) }
    ensures fault { IfErr result (FailsWith (IsRefused question parts.old)) }
{
    match question {
        TableQuestion::Lint => lint_answer(alloc, parts, &[]),
        TableQuestion::Programs => {
            let missing = missing(growing, alloc, folders, parts)?;
            lint_answer(alloc, parts, &missing)
        }
        TableQuestion::Diff(level) => {
            let (old, new) = old_and_new(alloc, parts, remarks)?;
            match change_lines(alloc, level_asked(level, &new), &old, &new) {
                Ok(lines) => Ok((lines, DONE)),
                Err(AllocError) => Err(TableFault::Memory),
            }
        }
        TableQuestion::Plan(level) => {
            let table = table_in(alloc, parts, remarks)?;
            let lines = plan_of(alloc, level, &table)?;
            Ok((lines, DONE))
        }
    }
}

/// Answers a question about the inittabs at the paths.
pub(crate) fn tables_answer<'a, T: Texts, G: LiveTraces>(
    texts: &T,
    growing: &G,
    alloc: Global,
    paths: &Paths<'_, 'a>,
    question: TableQuestion,
    remarks: &mut Remarks,
) -> Result<Answer, Refusal<'a>>
    ensures { Answers (T.text_at texts.now) (path_texts paths.now) question
        (answer_value result) }
{
    let mut parts = read_files(texts, growing, alloc, paths)?;
    Ok(answer(growing, alloc, paths.path, question, &mut parts, remarks)?)
}

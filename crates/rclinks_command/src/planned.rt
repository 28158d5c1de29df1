//! The folders of a directory, with the links that a plan puts there.

ghost use Rattle.std.specs.Prelude.{◌≡◌, ◌++◌, true, flat_map, IfOk, OnOk};
ghost use Rattle.std.specs.List.{list_any};
ghost use Rattle.rc_links.specs.Changes.{targets_of, is_taken};
ghost use Rattle.rclinks_command.specs.Refusals.{refusal_status};
ghost use Rattle.rclinks_command.specs.Writing.{AreFolders, AreTargets, InFolders, IsFolder, all_levels, gone_at, has_taken, link_entry, planned_at, target_of, targets_in};

use crate::folders::LinkFolders;
use crate::report::Refusal;
use init_words::{Level, Memory};
use program_io::Reason;
use rc_links::{Folder, FolderEntry, LEVELS, Plan, gone, linked_name, taken};
use std::alloc::Global;
use std::io;
use std::io::Write;

/// The reason why the contents of a directory's folders are not known.
#[derive(Drop)]
pub(crate) enum FoldersFault {
    /// The folder of a runlevel can't be listed.
    Level(Level, io::Error),
    /// The folder of the scripts can't be listed.
    Scripts(io::Error),
    /// Out of memory.
    Memory,
}

impl From<Memory> for FoldersFault {
    fn from(_error: Memory) -> FoldersFault {
        FoldersFault::Memory
    }
}

/// Reports that a folder can't be listed, unless memory ran out, and returns the refusal.
pub(crate) fn refuse_unlisted(dir: &str, fault: &FoldersFault, report: &mut Vec<u8>) -> Refusal
    ensures { refusal_status result ≡ 4 }
{
    let (level, error) = match fault {
        FoldersFault::Memory => return Refusal::Memory,
        FoldersFault::Scripts(error) => (None, error),
        FoldersFault::Level(level, error) => (Some(*level), error),
    };
    let _ = write!(report, "rclinks: {dir}/");
    let _ = match level {
        Some(level) => write!(report, "rc{}.d", char::from(level.code())),
        None => write!(report, "init.d"),
    };
    let _ = writeln!(
        report,
        ": cannot list: {}; nothing was changed",
        Reason(error)
    );
    Refusal::Failed
}

/// Returns the target of the link to a script.
fn target_of(alloc: Global, name: &[u8]) -> Result<Vec<u8>, Memory>
    ensures { IfOk result (λ target. target.items ≡ target_of name.now) }
{
    let mut target = Vec::new(alloc);
    target.extend_from_slice(b"../init.d/")?;
    target.extend_from_slice(name)?;
    Ok(target)
}

/// Returns a link as an entry of a folder.
fn link_entry(alloc: Global, link: &[u8]) -> Result<FolderEntry, Memory>
    ensures { IfOk result (λ entry. entry ≡ link_entry link.now) }
{
    let name = Vec::from_slice(alloc, link)?;
    Ok(FolderEntry::new(name, target_of(alloc, linked_name(link))?))
}

/// Returns the plan's links in a runlevel's folder.
fn planned_at(alloc: Global, plan: &Plan, level: Level) -> Result<Vec<FolderEntry>, Memory>
    ensures { IfOk result (λ planned. planned.items ≡ planned_at plan.now level) }
{
    let links = plan.links_at(alloc, level)?;
    let mut planned = Vec::new(alloc);
    for link in &links {
        planned.push(link_entry(alloc, link.as_slice())?)?;
    }
    Ok(planned)
}

/// Returns the targets of the links to a plan's scripts.
fn targets_in(alloc: Global, plan: &Plan) -> Result<Vec<Vec<u8>>, Memory>
    ensures { IfOk result (λ targets. targets_of targets.items ≡ targets_in plan.now) }
{
    let names = plan.names(alloc)?;
    let mut targets = Vec::new(alloc);
    for name in &names {
        targets.push(target_of(alloc, name.as_slice())?)?;
    }
    Ok(targets)
}

/// Returns the folder of a runlevel.
fn folder_at<F: LinkFolders>(
    folders: &F,
    alloc: Global,
    dir: &str,
    plan: &Plan,
    level: Level,
) -> Result<Folder, FoldersFault>
    ensures { IfOk result (λ folder. (folder.level ≡ level)
        × IsFolder (F.held folders.now) dir.now plan.now folder) }
{
    let planned = planned_at(alloc, plan, level)?;
    match folders.entries(alloc, dir, level) {
        Ok(held) => Ok(Folder::new(level, planned, held)),
        Err(error) => Err(FoldersFault::Level(level, error)),
    }
}

/// Returns the folders of all runlevels, with the plan's links and the entries that they hold.
pub(crate) fn folders_in<F: LinkFolders>(
    folders: &F,
    alloc: Global,
    dir: &str,
    plan: &Plan,
) -> Result<Vec<Folder>, FoldersFault>
    ensures { IfOk result (λ found.
        AreFolders (F.held folders.now) dir.now plan.now found.items) }
{
    let mut found = Vec::new(alloc);
    for level in LEVELS {
        let folder = folder_at(folders, alloc, dir, plan, level)?;
        if found.push(folder).is_err() {
            return Err(FoldersFault::Memory);
        }
    }
    Ok(found)
}

/// Returns the plan. If runlevels are kept, the runlevels of a script are those of its links in the folders of a
/// directory.
pub(crate) fn kept_in<F: LinkFolders>(
    folders: &F,
    alloc: Global,
    dir: &str,
    keeps: bool,
    plan: Plan,
) -> Result<Plan, FoldersFault>
    ensures { IfOk result (λ kept.
        InFolders keeps (F.held folders.now) dir.now plan (λ plan. kept ≡ plan)) }
{
    if !keeps {
        return Ok(plan);
    }
    let read = folders_in(folders, alloc, dir, &plan)?;
    Ok(plan.kept(alloc, read.as_slice())?)
}

/// Adds the targets of the links in a folder that lead to none of these scripts.
fn add_gone_at(
    alloc: Global,
    scripts: &[FolderEntry],
    folder: &Folder,
    targets: &mut Vec<Vec<u8>>,
) -> Result<(), Memory>
    ensures { OnOk result (targets_of targets.new.items
        ≡ targets_of targets.old.items ++ gone_at scripts.now folder.now) }
{
    for entry in &gone(alloc, scripts, folder)? {
        targets.push(Vec::from_slice(alloc, entry.leads())?)?;
    }
    Ok(())
}

/// Adds the targets of the links in all folders that lead to none of these scripts.
fn add_gone_in(
    alloc: Global,
    scripts: &[FolderEntry],
    folders: &[Folder],
    targets: &mut Vec<Vec<u8>>,
) -> Result<(), Memory>
    ensures { OnOk result (targets_of targets.new.items
        ≡ targets_of targets.old.items ++ flat_map (gone_at scripts.now) folders.now) }
{
    for folder in folders {
        add_gone_at(alloc, scripts, folder, targets)?;
    }
    Ok(())
}

/// Returns the targets whose links are brought into line with the plan in the folders of a directory: the scripts of
/// the plan, and if links are pruned, the scripts that are gone.
pub(crate) fn targets_for<F: LinkFolders>(
    folders: &F,
    alloc: Global,
    dir: &str,
    prunes: bool,
    plan: &Plan,
    read: &[Folder],
) -> Result<Vec<Vec<u8>>, FoldersFault>
    ensures { IfOk result (λ targets. AreTargets prunes (F.scripts_in folders.now) dir.now
        plan.now read.now (targets_of targets.items)) }
{
    let mut targets = targets_in(alloc, plan)?;
    if !prunes {
        return Ok(targets);
    }
    match folders.scripts(alloc, dir) {
        Ok(scripts) => {
            add_gone_in(alloc, scripts.as_slice(), read, &mut targets)?;
            Ok(targets)
        }
        Err(error) => Err(FoldersFault::Scripts(error)),
    }
}

/// Reports the entries of a folder that occupy a name that the plan needs. Returns whether there are any.
fn tell_taken_at(
    alloc: Global,
    dir: &str,
    targets: &[Vec<u8>],
    folder: &Folder,
    report: &mut Vec<u8>,
) -> Result<bool, Memory>
    ensures { IfOk result (λ found. found
        ≡ list_any (is_taken (targets_of targets.now) folder.now.planned) folder.now.held) }
{
    let found = taken(alloc, targets, folder)?;
    for entry in found.as_slice() {
        let code = char::from(folder.level().code());
        let name = std::str::from_utf8(entry.name()).unwrap_or("?");
        let _ = writeln!(
            report,
            "rclinks: {dir}/rc{code}.d/{name}: not a link to a planned script, but the plan needs this name; nothing was changed: move it away"
        );
    }
    Ok(!found.as_slice().is_empty())
}

/// Reports the entries of all folders that occupy a name that the plan needs. Returns whether there are any.
pub(crate) fn tell_taken(
    alloc: Global,
    dir: &str,
    targets: &[Vec<u8>],
    folders: &[Folder],
    report: &mut Vec<u8>,
) -> Result<bool, Memory>
    ensures { IfOk result (λ found. found ≡ has_taken (targets_of targets.now) folders.now) }
{
    let mut found = false;
    for folder in folders {
        if tell_taken_at(alloc, dir, targets, folder, report)? {
            found = true;
        }
    }
    Ok(found)
}

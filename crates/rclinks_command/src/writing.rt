//! Prints or makes the changes that a plan needs in the folders of a directory.

ghost use Rattle.std.specs.Prelude.{◌≡◌, ◌++◌, ℕ, None, IfOk, IfSome, OnOk, take};
ghost use Rattle.rclinks_command.specs.Folders.{Becomes, changed_by};
ghost use Rattle.rclinks_command.specs.Writing.{InFolders, IsTaken, NeededChanges, act_word, change_line, changes_text};

use crate::folders::LinkFolders;
use crate::line::Line;
use crate::planned::{FoldersFault, folders_in, kept_in, targets_for, tell_taken};
use init_words::Memory;
use program_io::{Reason, write_text};
use rc_links::{LinkAction, LinkChange, Plan, changes};
use std::alloc::Global;
use std::io;
use std::io::Write;

/// A change that failed.
#[derive(Drop)]
pub(crate) struct Failure {
    /// Its position among the changes.
    position: usize,
    error: io::Error,
}

/// Returns the word for an action on an entry.
fn act_word(act: LinkAction) -> &'static [u8]
    ensures { result.now ≡ act_word act }
{
    match act {
        LinkAction::Remove => b"remove",
        LinkAction::Make => b"make",
    }
}

/// Appends the line for a change.
fn add_change(text: &mut Vec<u8>, change: &LinkChange) -> Result<(), Memory>
    ensures { OnOk result (text.new.items ≡ text.old.items ++ change_line change.now) }
{
    text.extend_from_slice(act_word(change.act()))?;
    text.extend_from_slice(b" rc")?;
    text.push(change.level().code())?;
    text.extend_from_slice(b".d/")?;
    text.extend_from_slice(change.entry().name())?;
    text.push(b' ')?;
    text.extend_from_slice(change.entry().leads())?;
    text.push(b'\n')?;
    Ok(())
}

/// Returns the lines for changes.
pub(crate) fn changes_text(alloc: Global, changes: &[LinkChange]) -> Result<Vec<u8>, Memory>
    ensures { IfOk result (λ text. text.items ≡ changes_text changes.now) }
{
    let mut text = Vec::new(alloc);
    for change in changes {
        add_change(&mut text, change)?;
    }
    Ok(text)
}

/// Adds changes to a report, one per line, with a word before each.
fn tell_changes(alloc: Global, word: &str, changes: &[LinkChange], told: &mut Vec<u8>) {
    for change in changes {
        let mut text = Vec::new(alloc);
        if add_change(&mut text, change).is_ok() {
            let _ = write!(told, "rclinks: {word}: ");
            let _ = write_text(told, text.as_slice());
        }
    }
}

/// Returns the message about the change that failed: the reason, the changes made before it, and the changes not made.
pub(crate) fn failure_lines(
    alloc: Global,
    dir: &str,
    changes: &[LinkChange],
    failure: &Failure,
) -> Vec<u8> {
    let mut told = Vec::new(alloc);
    let (done, rest) = changes.split_at(failure.position.min(changes.len()));
    let reason = Reason(&failure.error);
    let _ = writeln!(told, "rclinks: {dir}: a change failed: {reason}");
    tell_changes(alloc, "done", done, &mut told);
    tell_changes(alloc, "not done", rest, &mut told);
    told
}

/// Makes changes in a directory, one after another, until one fails.
pub(crate) fn make_changes<F: LinkFolders>(
    folders: &mut F,
    alloc: Global,
    dir: &str,
    changes: &[LinkChange],
) -> Result<(), Failure>
    ensures done { OnOk result
        (Becomes (F.held folders.old) (F.held folders.new) (changed_by dir.now changes.now)) }
    ensures part { (count : ℕ) × Becomes (F.held folders.old) (F.held folders.new)
        (changed_by dir.now (take count changes.now)) }
{
    for position in 0..changes.len() {
        if let Err(error) = folders.change(alloc, dir, &changes[position]) {
            return Err(Failure { position, error });
        }
    }
    Ok(())
}

/// Returns the changes that a plan needs in the folders of a directory, or `None` if a name is occupied, which is
/// reported.
pub(crate) fn changes_for<F: LinkFolders>(
    folders: &F,
    alloc: Global,
    dir: &str,
    line: &Line,
    plan: Plan,
    report: &mut Vec<u8>,
) -> Result<Option<Vec<LinkChange>>, FoldersFault>
    ensures wanted { IfOk result (λ asked. IfSome asked (λ found. InFolders line.now.keeps
        (F.held folders.now) dir.now plan (λ plan. NeededChanges (F.held folders.now)
        (F.scripts_in folders.now) line.now.prunes dir.now plan found.items))) }
    ensures taken { IfOk result (λ found. found ≡ None
        → InFolders line.now.keeps (F.held folders.now) dir.now plan
        (IsTaken (F.held folders.now) (F.scripts_in folders.now) line.now.prunes dir.now)) }
{
    let plan = kept_in(folders, alloc, dir, line.keeps, plan)?;
    let read = folders_in(folders, alloc, dir, &plan)?;
    let targets = targets_for(folders, alloc, dir, line.prunes, &plan, read.as_slice())?;
    if tell_taken(alloc, dir, targets.as_slice(), read.as_slice(), report)? {
        return Ok(None);
    }
    Ok(Some(changes(alloc, targets.as_slice(), read.as_slice())?))
}

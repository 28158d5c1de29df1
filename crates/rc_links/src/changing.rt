//! Computes the changes after which the folders hold exactly the links of the plan, and finds entries in their way.

ghost use Rattle.std.specs.Prelude.{◌≡◌, ◌++◌, ℕ, List, not, map, flat_map, take, IfOk, OnOk};
ghost use Rattle.std.specs.List.{AllByRecursion, filter};
ghost use Rattle.rc_links.specs.Changes.{changes_of, is_numbered, is_taken, making, removal, targets_of};
ghost use Rattle.rc_links.specs.Kept.{kept_script};
ghost use Rattle.rc_links.specs.Mending.{AreApart, IsMended, Stays, behind};
ghost use Rattle.rc_links.specs.PlannedText.{PlannedText};
ghost use Rattle.rc_links.specs.Sets.{HasNames, is_entry_of, is_removed_by, is_taken_by, leads_among};

use crate::folder_entries::FolderEntry;
use crate::folders::{Folder, LinkAction, LinkChange};
use crate::sets::{Entries, Names, entries_in, is_among, is_entry_of, names_in, targets_in};
use init_words::Memory;
use std::alloc::Allocator;

/// Reports whether a name has the form of a numbered link: `S` or `K`, two digits and at least one more byte.
pub(crate) fn is_numbered(name: &[u8]) -> bool
    ensures { result ≡ is_numbered name.now }
{
    match name {
        [letter, tens, ones, _, ..] => {
            (*letter == b'S' || *letter == b'K') && tens.is_ascii_digit() && ones.is_ascii_digit()
        }
        _ => false,
    }
}

/// Reports whether an entry is a numbered link to one of the planned scripts' paths.
fn is_ours<A: Allocator, B: Allocator>(targets: &Names<'_, A>, entry: &FolderEntry<B>) -> bool
    ensures { result ≡ leads_among targets.now entry.now }
{
    is_numbered(entry.name()) && is_among(targets, entry.leads())
}

/// Returns the entries that have one of the names and are not numbered links to a planned script.
fn taken_among<'a, A: Allocator>(
    alloc: A,
    targets: &Names<'_, A>,
    names: &Names<'_, A>,
    entries: &'a [FolderEntry<A>],
) -> Result<Vec<&'a FolderEntry<A>, A>, Memory>
    ensures { IfOk result (λ found.
        map (λ e. e.now) found.items ≡ filter (is_taken_by targets.now names.now) entries.now) }
{
    let mut found = Vec::new(alloc);
    for entry in entries {
        if is_among(names, entry.name()) && !is_ours(targets, entry) {
            found.push(entry)?;
        }
    }
    Ok(found)
}

/// Returns the entries of a folder that occupy a name of the plan and are not numbered links to a planned script.
pub fn taken<'a, A: Allocator + Copy>(
    alloc: A,
    targets: &[Vec<u8, A>],
    folder: &'a Folder<A>,
) -> Result<Vec<&'a FolderEntry<A>, A>, Memory>
    ensures { IfOk result (λ found. map (λ e. e.now) found.items
        ≡ filter (is_taken (targets_of targets.now) folder.now.planned) folder.now.held) }
{
    let targets = targets_in(alloc, targets)?;
    let names = names_in(alloc, folder.planned())?;
    let found = taken_among(alloc, &targets, &names, folder.held())?;
    Ok(found)
}

/// Reports whether an entry must be removed: it is a numbered link to a planned script but not a link of the plan, and
/// some link of the plan has its name, or none has it, as requested.
fn is_removed<A: Allocator, B: Allocator>(
    targets: &Names<'_, A>,
    planned: &Entries<'_, A>,
    names: &Names<'_, A>,
    named: bool,
    entry: &FolderEntry<B>,
) -> bool
    ensures { result ≡ is_removed_by named targets.now planned.now names.now entry.now }
{
    is_ours(targets, entry)
        && !is_entry_of(planned, entry)
        && is_among(names, entry.name()) == named
}

/// Adds the removals of the entries for which `is_removed` holds.
fn add_removals<A: Allocator + Copy>(
    alloc: A,
    targets: &Names<'_, A>,
    planned: &Entries<'_, A>,
    names: &Names<'_, A>,
    named: bool,
    folder: &Folder<A>,
    changes: &mut Vec<LinkChange<A>, A>,
) -> Result<(), Memory>
    ensures { OnOk result (changes.new.items ≡ changes.old.items ++ map (removal folder.now.level)
        (filter (is_removed_by named targets.now planned.now names.now) folder.now.held)) }
{
    for entry in folder.held() {
        if is_removed(targets, planned, names, named, entry) {
            changes.push(LinkChange::new(LinkAction::Remove, folder.level(), entry.copy(alloc)?))?;
        }
    }
    Ok(())
}

/// Adds the creation of the plan's links that the folder does not hold.
fn add_makings<A: Allocator + Copy>(
    alloc: A,
    held: &Entries<'_, A>,
    folder: &Folder<A>,
    changes: &mut Vec<LinkChange<A>, A>,
) -> Result<(), Memory>
    ensures { OnOk result (changes.new.items ≡ changes.old.items ++ map (making folder.now.level)
        (filter (λ e. not (is_entry_of held.now e)) folder.now.planned)) }
{
    for link in folder.planned() {
        if !is_entry_of(held, link) {
            changes.push(LinkChange::new(LinkAction::Make, folder.level(), link.copy(alloc)?))?;
        }
    }
    Ok(())
}

/// Adds the changes of a folder.
fn add_folder<A: Allocator + Copy>(
    alloc: A,
    targets: &Names<'_, A>,
    folder: &Folder<A>,
    changes: &mut Vec<LinkChange<A>, A>,
) -> Result<(), Memory>
    ensures { OnOk result ((places : List (List ℕ)) → HasNames targets.now places
        → changes.new.items ≡ changes.old.items ++ changes_of places folder.now) }
{
    let planned = entries_in(alloc, folder.planned())?;
    let names = names_in(alloc, folder.planned())?;
    let held = entries_in(alloc, folder.held())?;
    add_removals(alloc, targets, &planned, &names, true, folder, changes)?;
    add_makings(alloc, &held, folder, changes)?;
    add_removals(alloc, targets, &planned, &names, false, folder, changes)?;
    Ok(())
}

/// Returns the changes after which the numbered links to planned scripts in the folders are exactly the links of the
/// plan. In each folder, they first remove the old links that occupy a name of the plan, then create the links of the
/// plan, and then remove the other old links. So if the changes are interrupted at any point, each script still has a
/// link in every folder in which it had one and should have one. The scripts' paths are the targets of the links.
pub fn changes<A: Allocator + Copy>(
    alloc: A,
    targets: &[Vec<u8, A>],
    folders: &[Folder<A>],
) -> Result<Vec<LinkChange<A>, A>, Memory>
    ensures changes { IfOk result (λ found.
        found.items ≡ flat_map (changes_of (targets_of targets.now)) folders.now) }
    // If only some of the changes, in order, are made, the next run with the same plan brings each folder to its final
    // state,
    ensures mended { IfOk result (λ found. AreApart folders.now → (count : ℕ)
        → AllByRecursion (IsMended (targets_of targets.now) (take count found.items)) folders.now) }
    // and a script whose links stay in the same runlevels has these runlevels according to the folders at any time.
    ensures kept { IfOk result (λ found. AreApart folders.now → (count : ℕ) (s : PlannedText)
        → Stays (targets_of targets.now) s.name folders.now
        → kept_script (map (behind (take count found.items)) folders.now) s
        ≡ kept_script folders.now s) }
{
    let targets = targets_in(alloc, targets)?;
    let mut found = Vec::new(alloc);
    for folder in folders {
        add_folder(alloc, &targets, folder, &mut found)?;
    }
    Ok(found)
}

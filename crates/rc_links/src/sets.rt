//! Sets of names, and of folders' entries, with lookup in constant time.

ghost use Rattle.std.specs.Prelude.{◌≡◌, IfOk, OnOk};
ghost use Rattle.rc_links.specs.Changes.{targets_of};
ghost use Rattle.rc_links.specs.Sets.{GainsEntry, GainsName, HasEntries, HasNames, HasNamesOf, is_among, is_entry_of};

use crate::folder_entries::FolderEntry;
use indexmap::IndexSet;
use init_words::Memory;
use std::alloc::Allocator;
use std::hash::{BuildHasherDefault, FoldHasher};

/// A set of names.
pub(crate) type Names<'a, A> = IndexSet<&'a [u8], BuildHasherDefault<FoldHasher>, A>;

/// A set of entries, each represented by its name and its target.
pub(crate) type Entries<'a, A> = IndexSet<(&'a [u8], &'a [u8]), BuildHasherDefault<FoldHasher>, A>;

/// Reports whether the set has the name.
pub(crate) fn is_among<A: Allocator>(names: &Names<'_, A>, name: &[u8]) -> bool
    ensures { result ≡ is_among names.now name.now }
{
    names.contains(name)
}

/// Reports whether the set has the entry.
pub(crate) fn is_entry_of<A: Allocator, B: Allocator>(
    entries: &Entries<'_, A>,
    entry: &FolderEntry<B>,
) -> bool
    ensures { result ≡ is_entry_of entries.now entry.now }
{
    entries.contains(&(entry.name(), entry.leads()))
}

fn add_name<'a, A: Allocator + Copy>(names: &mut Names<'a, A>, name: &'a [u8]) -> Result<(), Memory>
    ensures { OnOk result (GainsName names.old names.new name.now) }
{
    names.insert(name)?;
    Ok(())
}

fn add_entry<'a, A: Allocator + Copy>(
    entries: &mut Entries<'a, A>,
    entry: &'a FolderEntry<A>,
) -> Result<(), Memory>
    ensures { OnOk result (GainsEntry entries.old entries.new entry.now) }
{
    entries.insert((entry.name(), entry.leads()))?;
    Ok(())
}

/// Returns the set of these names.
pub(crate) fn targets_in<A: Allocator + Copy>(
    alloc: A,
    targets: &[Vec<u8, A>],
) -> Result<Names<'_, A>, Memory>
    ensures { IfOk result (λ names. HasNames names (targets_of targets.now)) }
{
    let mut names = IndexSet::new(alloc);
    for target in targets {
        add_name(&mut names, target.as_slice())?;
    }
    Ok(names)
}

/// Returns the set of these entries' names.
pub(crate) fn names_in<A: Allocator + Copy>(
    alloc: A,
    entries: &[FolderEntry<A>],
) -> Result<Names<'_, A>, Memory>
    ensures { IfOk result (λ names. HasNamesOf names entries.now) }
{
    let mut names = IndexSet::new(alloc);
    for entry in entries {
        add_name(&mut names, entry.name())?;
    }
    Ok(names)
}

/// Returns the set of these entries.
pub(crate) fn entries_in<A: Allocator + Copy>(
    alloc: A,
    entries: &[FolderEntry<A>],
) -> Result<Entries<'_, A>, Memory>
    ensures { IfOk result (λ found. HasEntries found entries.now) }
{
    let mut found = IndexSet::new(alloc);
    for entry in entries {
        add_entry(&mut found, entry)?;
    }
    Ok(found)
}

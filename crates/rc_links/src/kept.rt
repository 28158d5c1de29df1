//! Plans that use the runlevels of existing links instead of the runlevels in the headers; and links to missing
//! scripts.

ghost use Rattle.std.specs.Prelude.{◌≡◌, List, map, IfOk, OnOk};
ghost use Rattle.std.specs.List.{filter};
ghost use Rattle.rc_links.specs.FolderText.{FolderText};
ghost use Rattle.rc_links.specs.Kept.{is_gone, is_nowhere, kept_plan, kept_script, target_in};
ghost use Rattle.rc_links.specs.Sets.{AreLinksOf, GainsLink, HasLinks, has_link, is_gone_by, levels_by};

use crate::changing::is_numbered;
use crate::folder_entries::FolderEntry;
use crate::folders::Folder;
use crate::names::is_name;
use crate::plans::{Plan, Planned};
use crate::sets::{Names, is_among, names_in};
use indexmap::IndexSet;
use init_words::{Level, Memory};
use std::alloc::Allocator;
use std::hash::{BuildHasherDefault, FoldHasher};

/// Numbered links, each represented by its letter and the name of its script.
type Links<'a, A> = IndexSet<(u8, &'a [u8]), BuildHasherDefault<FoldHasher>, A>;

/// A runlevel, and the numbered links in its folder.
type LevelLinks<'a, A> = (Level, Links<'a, A>);

/// Returns the name after `../init.d/`, or an empty name if the target begins differently.
fn target_in(leads: &[u8]) -> &[u8]
    ensures { result.now ≡ target_in leads.now }
{
    leads.strip_prefix(b"../init.d/").unwrap_or(&[])
}

/// Adds the letter and the script of an entry, if it is a numbered link.
fn add_link<'a, A: Allocator + Copy>(
    links: &mut Links<'a, A>,
    entry: &'a FolderEntry<A>,
) -> Result<(), Memory>
    ensures { OnOk result (GainsLink links.old links.new entry.now) }
{
    if let [letter, ..] = entry.name()
        && is_numbered(entry.name())
    {
        links.insert((*letter, target_in(entry.leads())))?;
    }
    Ok(())
}

/// Returns the numbered links among these entries.
fn links_in<A: Allocator + Copy>(
    alloc: A,
    entries: &[FolderEntry<A>],
) -> Result<Links<'_, A>, Memory>
    ensures { IfOk result (λ links. HasLinks links entries.now) }
{
    let mut links = IndexSet::new(alloc);
    for entry in entries {
        add_link(&mut links, entry)?;
    }
    Ok(links)
}

/// Reports whether there is a link with the letter to the script of this name.
fn has_link<A: Allocator>(links: &Links<'_, A>, letter: u8, name: &[u8]) -> bool
    ensures { result ≡ has_link letter name.now links.now }
{
    links.contains(&(letter, name))
}

/// Returns the numbered links of each folder.
fn all_links<A: Allocator + Copy>(
    alloc: A,
    folders: &[Folder<A>],
) -> Result<Vec<LevelLinks<'_, A>, A>, Memory>
    ensures { IfOk result (λ links. AreLinksOf links.items folders.now) }
{
    let mut found = Vec::new(alloc);
    for folder in folders {
        found.push((folder.level(), links_in(alloc, folder.held())?))?;
    }
    Ok(found)
}

/// Returns the runlevels that have a link with the letter to the script of this name.
fn levels_in<A: Allocator>(
    alloc: A,
    letter: u8,
    name: &[u8],
    links: &[LevelLinks<'_, A>],
) -> Result<Vec<Level, A>, Memory>
    ensures { IfOk result (λ levels. levels.items ≡ levels_by letter name.now links.now) }
{
    let mut levels = Vec::new(alloc);
    for (level, links) in links {
        if has_link(links, letter, name) {
            levels.push(*level)?;
        }
    }
    Ok(levels)
}

/// Reports whether there are no runlevels.
fn is_nowhere(starts: &[Level], stops: &[Level]) -> bool
    ensures { result ≡ is_nowhere starts.now stops.now }
{
    matches!((starts, stops), ([], []))
}

/// Returns the script with the runlevels of its links, if it has any.
fn kept_script<A: Allocator + Copy>(
    alloc: A,
    links: &[LevelLinks<'_, A>],
    script: &Planned<A>,
) -> Result<Planned<A>, Memory>
    ensures { IfOk result (λ kept. (folders : List FolderText) → AreLinksOf links.now folders
        → kept ≡ kept_script folders script.now) }
{
    let starts = levels_in(alloc, b'S', script.name.as_bytes(), links)?;
    let stops = levels_in(alloc, b'K', script.name.as_bytes(), links)?;
    if is_nowhere(starts.as_slice(), stops.as_slice()) {
        return Ok(script.copy(alloc)?);
    }
    Ok(Planned {
        name: String::from_str(alloc, script.name.as_str())?,
        start: script.start,
        stop: script.stop,
        starts,
        stops,
    })
}

impl<A: Allocator + Copy> Plan<A> {
    /// Returns a plan with the same numbers. A script that has numbered links in the folders keeps their runlevels: it
    /// is started in those with an `S` link, and stopped in those with a `K` link.
    pub fn kept(&self, alloc: A, folders: &[Folder<A>]) -> Result<Plan<A>, Memory>
        ensures { IfOk result (λ plan. plan ≡ kept_plan folders.now self.now) }
    {
        let links = all_links(alloc, folders)?;
        let mut scripts = Vec::new(alloc);
        for script in &self.scripts {
            scripts.push(kept_script(alloc, links.as_slice(), script)?)?;
        }
        Ok(Plan { scripts })
    }
}

/// Returns the entries that are links to an init script with none of the names.
fn gone_among<'a, A: Allocator>(
    alloc: A,
    names: &Names<'_, A>,
    entries: &'a [FolderEntry<A>],
) -> Result<Vec<&'a FolderEntry<A>, A>, Memory>
    ensures { IfOk result (λ found.
        map (λ e. e.now) found.items ≡ filter (is_gone_by names.now) entries.now) }
{
    let mut found = Vec::new(alloc);
    for entry in entries {
        let name = target_in(entry.leads());
        if is_name(name) && !is_among(names, name) {
            found.push(entry)?;
        }
    }
    Ok(found)
}

/// Returns the entries of a folder that are links to an init script which is not among these.
pub fn gone<'a, A: Allocator + Copy>(
    alloc: A,
    scripts: &[FolderEntry<A>],
    folder: &'a Folder<A>,
) -> Result<Vec<&'a FolderEntry<A>, A>, Memory>
    ensures { IfOk result (λ found.
        map (λ e. e.now) found.items ≡ filter (is_gone scripts.now) folder.now.held) }
{
    let names = names_in(alloc, scripts)?;
    let found = gone_among(alloc, &names, folder.held())?;
    Ok(found)
}

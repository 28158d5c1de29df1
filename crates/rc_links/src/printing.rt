//! The links of a plan, and the lines that list them.

ghost use Rattle.std.specs.Prelude.{◌≡◌, ◌++◌, map, flat_map, [], ◌∷◌, IfOk, OnOk};
ghost use Rattle.rc_links.specs.Links.{AddsLinks, has_level, in_byte_order, level_text, link_line, link_of, linked_name, links_at, plan_text, start_links, stop_links};

use crate::plans::{Plan, Planned};
use init_words::{Level, Memory};
use std::alloc::Allocator;

/// The runlevels that have a folder of links (LSB Core 5.0), in the order in which their links are printed.
pub const LEVELS: [Level; 11] = [
    Level::L0,
    Level::L1,
    Level::L2,
    Level::L3,
    Level::L4,
    Level::L5,
    Level::L6,
    Level::L7,
    Level::L8,
    Level::L9,
    Level::S,
];

/// Returns the name of a link: its letter, its number in two digits and the script's name.
fn link_of<A: Allocator>(
    alloc: A,
    letter: u8,
    number: u8,
    name: &[u8],
) -> Result<Vec<u8, A>, Memory>
    ensures { IfOk result (λ link. link.items ≡ link_of letter number name.now) }
{
    let mut link = Vec::new(alloc);
    link.push(letter)?;
    link.push(b'0' + number / 10 % 10)?;
    link.push(b'0' + number % 10)?;
    link.extend_from_slice(name)?;
    Ok(link)
}

/// Reports whether the level is one of these.
fn has_level(levels: &[Level], level: Level) -> bool
    ensures { result ≡ has_level level levels.now }
{
    levels.contains(&level)
}

/// Returns the links of the scripts that are stopped in a runlevel.
fn stop_links<A: Allocator + Copy>(
    alloc: A,
    scripts: &[Planned<A>],
    level: Level,
) -> Result<Vec<Vec<u8, A>, A>, Memory>
    ensures { IfOk result (λ links.
        map (λ link. link.items) links.items ≡ stop_links level scripts.now) }
{
    let mut links = Vec::new(alloc);
    for script in scripts {
        if has_level(script.stops.as_slice(), level) {
            links.push(link_of(alloc, b'K', script.stop, script.name.as_bytes())?)?;
        }
    }
    Ok(links)
}

/// Returns the links of the scripts that are started in a runlevel.
fn start_links<A: Allocator + Copy>(
    alloc: A,
    scripts: &[Planned<A>],
    level: Level,
) -> Result<Vec<Vec<u8, A>, A>, Memory>
    ensures { IfOk result (λ links.
        map (λ link. link.items) links.items ≡ start_links level scripts.now) }
{
    let mut links = Vec::new(alloc);
    for script in scripts {
        if has_level(script.starts.as_slice(), level) {
            links.push(link_of(alloc, b'S', script.start, script.name.as_bytes())?)?;
        }
    }
    Ok(links)
}

/// Returns the script's name in the name of a link.
pub fn linked_name(link: &[u8]) -> &[u8]
    ensures { result.now ≡ linked_name link.now }
{
    link.get(3..).unwrap_or(&[])
}

/// Appends the line for a link.
fn add_line<A: Allocator>(text: &mut Vec<u8, A>, level: Level, link: &[u8]) -> Result<(), Memory>
    ensures { OnOk result (text.new.items ≡ text.old.items ++ link_line level link.now) }
{
    text.extend_from_slice(b"rc")?;
    text.push(level.code())?;
    text.extend_from_slice(b".d/")?;
    text.extend_from_slice(link)?;
    text.extend_from_slice(b" ../init.d/")?;
    text.extend_from_slice(linked_name(link))?;
    text.push(b'\n')?;
    Ok(())
}

/// Sorts links in byte order.
fn sort_links<A: Allocator>(links: &mut Vec<Vec<u8, A>, A>)
    ensures { map (λ link. link.items) links.new.items
        ≡ in_byte_order (map (λ link. link.items) links.old.items) }
{
    links.sort_unstable();
}

/// Sorts links in byte order and appends them to others.
fn add_sorted<A: Allocator>(
    links: &mut Vec<Vec<u8, A>, A>,
    mut more: Vec<Vec<u8, A>, A>,
) -> Result<(), Memory>
    ensures { OnOk result (AddsLinks links.old.items links.new.items
        (in_byte_order (map (λ link. link.items) more.items))) }
{
    sort_links(&mut more);
    links.append(&mut more)?;
    Ok(())
}

/// Appends the lines for links in a runlevel.
fn add_lines<A: Allocator>(
    text: &mut Vec<u8, A>,
    level: Level,
    links: &[Vec<u8, A>],
) -> Result<(), Memory>
    ensures { OnOk result (text.new.items ≡ text.old.items
        ++ flat_map (link_line level) (map (λ link. link.items) links.now)) }
{
    for link in links {
        add_line(text, level, link.as_slice())?;
    }
    Ok(())
}

impl<A: Allocator + Copy> Plan<A> {
    /// Returns the links in a runlevel's folder: those that stop, then those that start, each group in byte order.
    pub fn links_at(&self, alloc: A, level: Level) -> Result<Vec<Vec<u8, A>, A>, Memory>
        ensures { IfOk result (λ links.
            map (λ link. link.items) links.items ≡ links_at self.now level) }
    {
        let mut links = Vec::new(alloc);
        add_sorted(
            &mut links,
            stop_links(alloc, self.scripts.as_slice(), level)?,
        )?;
        add_sorted(
            &mut links,
            start_links(alloc, self.scripts.as_slice(), level)?,
        )?;
        Ok(links)
    }

    /// Returns the names of the scripts, in the order in which they were given.
    pub fn names(&self, alloc: A) -> Result<Vec<Vec<u8, A>, A>, Memory>
        ensures { IfOk result (λ names.
            map (λ name. name.items) names.items ≡ map (λ s. s.name) self.now) }
    {
        let mut names = Vec::new(alloc);
        for script in &self.scripts {
            names.push(Vec::from_slice(alloc, script.name.as_bytes())?)?;
        }
        Ok(names)
    }

    /// Returns the links of all runlevels, one per line: for each of 0 to 9 and S those that stop, then those that
    /// start, each group in byte order.
    pub fn print(&self, alloc: A) -> Result<Vec<u8, A>, Memory>
        ensures { IfOk result (λ text. text.items ≡ plan_text self.now) }
    {
        let mut text = Vec::new(alloc);
        for level in LEVELS {
            add_lines(&mut text, level, self.links_at(alloc, level)?.as_slice())?;
        }
        Ok(text)
    }
}

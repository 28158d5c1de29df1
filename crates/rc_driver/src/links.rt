//! Selects the links of a runlevel's folder to run, and sorts them.

ghost use Rattle.std.specs.Prelude.{◌≡◌, map, string_bytes, IfOk};
ghost use Rattle.rc_driver.specs.Links.{has_link, is_link, is_link_like, is_started, ordered, start_links, stop_links};
ghost use Rattle.rc_driver.specs.Runs.{texts_of};
ghost use Rattle.rc_driver.specs.Sysv.{is_halt, is_stopping, stopping_links, was_stopped};

use init_words::{Level, Memory};
use rc_links::{is_name, linked_name};
use std::alloc::Allocator;

/// Reports whether a name is a link with this letter: the letter, two digits and a name.
fn is_link(letter: u8, link: &[u8]) -> bool
    ensures { result ≡ is_link letter link.now }
{
    match link {
        [first, tens, ones, name @ ..] => {
            *first == letter && tens.is_ascii_digit() && ones.is_ascii_digit() && is_name(name)
        }
        _ => false,
    }
}

/// Reports whether the other name is a link with the letter for the same service.
fn is_link_like(letter: u8, link: &[u8], other: &[u8]) -> bool
    ensures { result ≡ is_link_like letter link.now other.now }
{
    is_link(letter, other) && linked_name(other) == linked_name(link)
}

/// Reports whether one of the names is a link with the letter for the same service.
fn has_link(letter: u8, link: &str, names: &[String]) -> bool
    ensures { result ≡ has_link letter link.now (map string_bytes names.now) }
{
    for name in names {
        if is_link_like(letter, link.as_bytes(), name.as_bytes()) {
            return true;
        }
    }
    false
}

/// Reports whether the link starts a service that does not run already.
fn is_started(previous: &[String], new: &[String], link: &str) -> bool
    ensures { result ≡ is_started (map string_bytes previous.now) (map string_bytes new.now)
        link.now }
{
    is_link(b'S', link.as_bytes())
        && !(has_link(b'S', link, previous) && !has_link(b'K', link, new))
}

/// Reports whether the previous level had stopped the link's service.
fn was_stopped(previous: &[String], link: &str) -> bool
    ensures { result ≡ was_stopped (map string_bytes previous.now) link.now }
{
    has_link(b'K', link, previous) && !has_link(b'S', link, previous)
}

/// Reports whether the name is a link with the letter whose service the previous level had not stopped.
fn is_stopping(letter: u8, previous: &[String], link: &str) -> bool
    ensures { result ≡ is_stopping letter (map string_bytes previous.now) link.now }
{
    is_link(letter, link.as_bytes()) && !was_stopped(previous, link)
}

/// Reports whether the machine is halted or rebooted in the level.
pub(crate) fn is_halt(level: Level) -> bool
    ensures { result ≡ is_halt level }
{
    matches!(level, Level::L0 | Level::L6)
}

/// Sorts links in byte order, and removes duplicates.
fn put_in_order<'n, A: Allocator>(links: &mut Vec<&'n str, A>)
    ensures { texts_of links.new.items ≡ ordered (texts_of links.old.items) }
{
    links.sort_unstable();
    links.dedup();
}

/// Returns the links of the new folder to run with `stop`.
pub(crate) fn stop_links<'n, A: Allocator>(
    alloc: A,
    new: &'n [String],
) -> Result<Vec<&'n str, A>, Memory>
    ensures { IfOk result (λ links.
        texts_of links.items ≡ stop_links (map string_bytes new.now)) }
{
    let mut links = Vec::new(alloc);
    for name in new {
        if is_link(b'K', name.as_bytes()) {
            links.push(name.as_str())?;
        }
    }
    put_in_order(&mut links);
    Ok(links)
}

/// Returns the links of the new folder to run with `start`.
pub(crate) fn start_links<'n, A: Allocator>(
    alloc: A,
    previous: &[String],
    new: &'n [String],
) -> Result<Vec<&'n str, A>, Memory>
    ensures { IfOk result (λ links. texts_of links.items
        ≡ start_links (map string_bytes previous.now) (map string_bytes new.now)) }
{
    let mut links = Vec::new(alloc);
    for name in new {
        if is_started(previous, new, name.as_str()) {
            links.push(name.as_str())?;
        }
    }
    put_in_order(&mut links);
    Ok(links)
}

/// Returns the links of the new folder with the letter that sysv-rc runs with `stop`.
pub(crate) fn stopping_links<'n, A: Allocator>(
    alloc: A,
    letter: u8,
    previous: &[String],
    new: &'n [String],
) -> Result<Vec<&'n str, A>, Memory>
    ensures { IfOk result (λ links. texts_of links.items
        ≡ stopping_links letter (map string_bytes previous.now) (map string_bytes new.now)) }
{
    let mut links = Vec::new(alloc);
    for name in new {
        if is_stopping(letter, previous, name.as_str()) {
            links.push(name.as_str())?;
        }
    }
    put_in_order(&mut links);
    Ok(links)
}

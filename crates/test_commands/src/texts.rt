//! Texts of scripts, and the headers and scripts in them.

use crate::rclinks_lines::NET;
use init_words::Memory;
use lsb_header::{Header, HeaderFault};
use rc_links::Script;
use std::alloc::{Allocator, Global};
use test_support::boxed;

/// A header with different words for each keyword, without its last line.
pub(crate) const NINE: &[u8] = b"### BEGIN INIT INFO
# Provides: a b
# Required-Start: $c d
# Required-Stop: e
# Should-Start: f g
# Should-Stop: h
# Default-Start: 2 3
# Default-Stop: 0 6
# Short-Description: i j
# Description: k
#  l
";

pub(crate) const SHOWN_NINE: &[u8] = b" a b/ $c d/ e/ f g/ h/23/06/i j/k l";

pub(crate) const END: &[u8] = b"### END INIT INFO\n";

/// Returns the text of a header.
pub(crate) fn header_of<A: Allocator + Copy>(
    global: Global,
    alloc: A,
    text: &[u8],
) -> Result<Box<Header<A>>, HeaderFault> {
    match boxed(global, lsb_header::read(alloc, text)?) {
        Ok(header) => Ok(header),
        Err(_) => Err(HeaderFault::Memory),
    }
}

/// Adds lists of words, each word after a blank, with a slash after each list.
fn add_words<A: Allocator>(text: &mut Vec<u8>, words: &[String<A>]) -> Result<(), Memory> {
    for word in words {
        text.push(b' ')?;
        text.extend_from_slice(word.as_bytes())?;
    }
    text.push(b'/')?;
    Ok(())
}

/// Returns the nine fields of a header, separated by slashes.
pub(crate) fn shown<A: Allocator>(global: Global, header: &Header<A>) -> Result<Vec<u8>, Memory> {
    let mut text = Vec::new(global);
    add_words(&mut text, header.provides())?;
    add_words(&mut text, header.required_start())?;
    add_words(&mut text, header.required_stop())?;
    add_words(&mut text, header.should_start())?;
    add_words(&mut text, header.should_stop())?;
    for levels in [header.default_start(), header.default_stop()] {
        for level in levels {
            text.push(level.code())?;
        }
        text.push(b'/')?;
    }
    text.extend_from_slice(header.short_description().as_bytes())?;
    text.push(b'/')?;
    text.extend_from_slice(header.description().as_bytes())?;
    Ok(text)
}

/// Joins texts.
pub(crate) fn joined(global: Global, texts: &[&[u8]]) -> Result<Vec<u8>, Memory> {
    let mut all = Vec::new(global);
    for text in texts {
        all.extend_from_slice(text)?;
    }
    Ok(all)
}

const WEB: &[u8] =
    b"### BEGIN INIT INFO\n# Provides: web www\n# Required-Start: net\n# Required-Stop: net\n\
    # Should-Start: absent\n# Default-Start: 3\n# Default-Stop: 0\n### END INIT INFO\n";

/// Returns the script with a name and a header, or `None` if there is no room for it.
fn script<A: Allocator + Copy>(alloc: A, name: &str, header: &[u8]) -> Option<Script<A>> {
    let header = lsb_header::read(alloc, header).ok()?;
    Some(Script::new(String::from_str(alloc, name).ok()?, header))
}

/// Returns two scripts, of which the first requires the second for its start and its stop, or `None` if there is no
/// room for them.
pub(crate) fn scripts_of<A: Allocator + Copy>(alloc: A) -> Option<Vec<Script<A>, A>> {
    let mut scripts = Vec::new(alloc);
    scripts.push(script(alloc, "web", WEB)?).ok()?;
    scripts.push(script(alloc, "net", NET)?).ok()?;
    Some(scripts)
}

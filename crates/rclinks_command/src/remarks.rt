//! Warnings about text in a header that has no effect. Each is a line without the words at its start that `report`
//! adds.

use crate::files::FileFault;
use init_words::Level;
use lsb_header::{Header, HeaderFault, Keyword, block_line, find_header, known_of};
use std::alloc::Global;
use std::io::Write;
use std::str;
use text_lines::next_word;

/// Returns the warnings about the lines of a file's header, whether or not the header can be read.
pub(crate) fn odd_lines(alloc: Global, path: &str, text: &[u8]) -> Vec<u8> {
    let mut odd = Vec::new(alloc);
    let Some((begin, body)) = find_header(text) else {
        return odd;
    };
    let mut number = begin;
    let mut rest = body;
    while let Some((line, more)) = block_line(rest) {
        number = number.saturating_add(1);
        tell_odd_line(path, number, line, &mut odd);
        rest = more;
    }
    odd
}

/// If the header with this fault has a line with further text after `### END INIT INFO`, returns that text and the
/// number of the line.
pub(crate) fn behind_end<'t>(text: &'t [u8], fault: &FileFault) -> Option<(usize, &'t str)> {
    let last = match fault {
        FileFault::Header(HeaderFault::NoEnd, _) => usize::MAX,
        FileFault::Header(HeaderFault::BadLine(number), _) => *number,
        _ => return None,
    };
    let (begin, body) = find_header(text)?;
    let mut number = begin;
    let mut rest = body;
    while let Some((line, more)) = block_line(rest) {
        number = number.saturating_add(1);
        if let Some(after) = line.strip_prefix(b"### END INIT INFO")
            && number <= last
        {
            return Some((number, str::from_utf8(after).unwrap_or("?")));
        }
        rest = more;
    }
    None
}

/// Adds the warnings about a line of a header.
fn tell_odd_line(path: &str, number: usize, line: &[u8], odd: &mut Vec<u8>) {
    if let [b'#', b'\t', ..] = line {
        let _ = writeln!(
            odd,
            "{path}: line {number}: a tab follows \"#\", so it is not a keyword line"
        );
    }
    if let [.., b'\r'] = line {
        let _ = writeln!(odd, "{path}: line {number}: it ends with a carriage return");
    }
    if let Some((Keyword::DefaultStart | Keyword::DefaultStop, levels)) = known_of(line) {
        tell_odd_levels(path, number, levels, odd);
    }
}

/// Adds the warnings about words that are not runlevels of the system.
fn tell_odd_levels(path: &str, number: usize, levels: &[u8], odd: &mut Vec<u8>) {
    let mut rest = levels;
    while let Some((word, more)) = next_word(rest) {
        if let Some(reason) = odd_level(word) {
            let word = str::from_utf8(word).unwrap_or("?");
            let _ = writeln!(odd, "{path}: line {number}: \"{word}\" is {reason}");
        }
        rest = more;
    }
}

/// Returns why a word is not a runlevel of the system, or `None` if it is one.
fn odd_level(word: &[u8]) -> Option<&'static str> {
    match word {
        [b'7'..=b'9'] => Some("above runlevel 6"),
        [code] if Level::read(*code).is_some() => None,
        _ => Some("not a runlevel"),
    }
}

/// Returns the warnings about runlevels that are in both Default-Start and Default-Stop of a header.
pub(crate) fn odd_header(alloc: Global, path: &str, header: &Header) -> Vec<u8> {
    let mut odd = Vec::new(alloc);
    for level in header.default_start() {
        if header.default_stop().contains(level) {
            let code = char::from(level.code());
            let _ = writeln!(
                odd,
                "{path}: runlevel {code} is in both Default-Start and Default-Stop"
            );
        }
    }
    odd
}

//! The fields of a row: texts, writers, and the answers of a scripted host.

use command_words::{KIT, VERSION};
use host_scripted::MemoryHost;
use std::alloc::{AllocError, Global};
use std::str;
use test_support::{Slow, difference, host_of};

/// Returns the fields of a row as texts.
pub(crate) fn texts_of<'r>(alloc: Global, fields: &[&'r [u8]]) -> Option<Vec<&'r str>> {
    let mut texts = Vec::new(alloc);
    for field in fields {
        texts.push(str::from_utf8(field).ok()?).ok()?;
    }
    Some(texts)
}

/// Returns the writer with this room in bytes. After `stuck` it can't be flushed; after `full` it accepts nothing when
/// it is full, and any other fails.
pub(crate) fn writer_of(alloc: Global, text: &str) -> Option<Slow> {
    let (word, room) = text.split_once(' ').unwrap_or(("", text));
    let room = room.trim_ascii_end().parse::<usize>().ok()?;
    Some(Slow::new(alloc, room, word != "full", word == "stuck"))
}

/// Returns the expected output of a program: VERSION is the line of its version.
pub(crate) fn output_of(alloc: Global, program: &str, text: &str) -> Result<String, AllocError> {
    if text == "VERSION\n" {
        return format!(in alloc; "{program} {VERSION} ({KIT})\n");
    }
    String::from_str(alloc, text)
}

/// Returns the answers, one per line, in the form that `host_of` parses. The indented lines after `carry` are those of
/// its state text.
fn replies_of(alloc: Global, answers: &str) -> Result<String, AllocError> {
    let mut replies = String::new(alloc);
    for line in answers.lines() {
        let (front, reply) = match line.strip_prefix("  ") {
            Some(first) if replies.ends_with("carry") => (" ", first),
            Some(more) => ("|", more),
            None if replies.is_empty() => ("", line),
            None => (" / ", line),
        };
        replies.push_str(front)?;
        replies.push_str(reply)?;
    }
    Ok(replies)
}

/// Returns `told`, or if it is empty, the difference between a text and the expected one.
pub(crate) fn or_difference<'x>(
    alloc: Global,
    told: String,
    what: &'x str,
    got: &'x [u8],
    want: &'x [u8],
) -> Option<String> {
    if !told.is_empty() {
        return Some(told);
    }
    difference(alloc, &[(what, got, want)]).ok()
}

/// Returns a host with these answers, one per line.
pub(crate) fn given_host(alloc: Global, answers: &str) -> Option<Box<MemoryHost>> {
    let replies = replies_of(alloc, answers).ok()?;
    host_of(alloc, alloc, &replies)
}

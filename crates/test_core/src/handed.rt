//! Cores and the contents of texts, each on the heap.

use crate::texts::text_of;
use core_model::Parts;
use core_text::{StateFault, read_state};
use level_core::Core;
use reexec_state::{hand_over, take_over};
use std::alloc::{Allocator, Global};
use test_support::{boxed, difference};

/// Returns the core in a text of this generation, with the given allocator.
pub(crate) fn taken<A: Allocator + Copy>(
    global: Global,
    alloc: A,
    text: &[u8],
    generation: u64,
) -> Result<Box<Core<A>>, StateFault> {
    Ok(boxed(global, take_over(alloc, text, generation)?)?)
}

/// Returns the contents of a text of this generation, with the given allocator.
pub(crate) fn parts_of<A: Allocator + Copy>(
    global: Global,
    alloc: A,
    text: &[u8],
    generation: u64,
) -> Result<Box<Parts<A>>, StateFault> {
    Ok(boxed(global, read_state(alloc, text, generation)?)?)
}

/// Reports whether a text of this generation has this answer: if reading it fails, taking it over fails for the same
/// reason.
pub(crate) fn is_answered(
    global: Global,
    text: &[u8],
    generation: u64,
    want: Option<StateFault>,
) -> bool {
    let told = if want == Some(StateFault::Unfit) {
        None
    } else {
        want
    };
    parts_of(global, global, text, generation).err() == told
        && taken(global, global, text, generation).err() == want
}

/// Reports whether a line is a record of version 1.
fn is_old(line: &str) -> bool {
    line.starts_with("slot ") && line.split(' ').count() == 9
}

/// Reports whether a text is of a generation and has these lines; each record of version 1 is given the mark for no
/// status.
pub(crate) fn is_text(global: Global, text: &[u8], generation: u64, lines: &str) -> Option<bool> {
    let front = text_of(global, 2, generation, "").ok()?;
    let mut news = str::from_utf8(text)
        .ok()?
        .strip_prefix(front.as_str())?
        .split('\n');
    for line in lines.split('\n') {
        let end = if is_old(line) { " -" } else { "" };
        if news.next()?.strip_prefix(line)? != end {
            return Some(false);
        }
    }
    Some(news.next().is_none())
}

/// Returns the difference between a text and the expected one; empty if there is none.
pub(crate) fn text_difference(
    global: Global,
    text: &[u8],
    generation: u64,
    lines: &str,
) -> Option<String> {
    let mut want = text_of(global, 2, generation, "").ok()?;
    for line in lines.lines() {
        want.push_str(line).ok()?;
        if is_old(line) {
            want.push_str(" -").ok()?;
        }
        want.push('\n').ok()?;
    }
    difference(global, &[("its text", text, want.as_bytes())]).ok()
}

/// Returns the text that the core hands over, if it is of this generation and has these lines.
pub(crate) fn handed<A: Allocator>(
    global: Global,
    core: &mut Core<A>,
    generation: u64,
    lines: &str,
) -> Option<Vec<u8>> {
    let text = hand_over(global, core).ok()?;
    is_text(global, &text, generation, lines)?.then_some(text)
}

//! The bytes that telinit(8) appends to a channel in memory. Other command lines are in tools/pages.d/telinit.

use crate::one_channel::OneChannel;
use initctl_frame::BLOCK;
use program_io::Reports;
use std::alloc::{AllocError, Global};
use telinit_command::run_words;
use test_support::{difference, line_words};

/// The bytes of the request for level 3, without the zeros at its end.
const REQUEST: &[u8] = b"\x69\x19\x09\x03\x01\0\0\03\0\0\0\x05";

/// Returns how a command line ended: its status, and how many bytes of the request for level 3 (initreq.h) were
/// appended to the channel.
fn end_of(
    alloc: Global,
    channel: &OneChannel,
    before: usize,
    status: u8,
) -> Result<String, AllocError> {
    let mut request = Vec::new(alloc);
    request.resize(before, 1)?;
    request.extend_from_slice(REQUEST)?;
    request.resize(before.saturating_add(BLOCK), 0)?;
    let gained = channel.bytes().len().saturating_sub(before);
    let words = if request.starts_with(channel.bytes()) {
        "of the request"
    } else {
        "of something else"
    };
    format!(in alloc; "status {status}, {gained} bytes {words}\n")
}

/// Returns the difference between the answer to a row's command line and the row; empty if there is none.
pub(crate) fn difference_of(alloc: Global, row: &[&str]) -> Option<String> {
    let [line, before, room, end] = *row else {
        return None;
    };
    let before = before.trim_ascii_end().parse::<usize>().ok()?;
    let room = room.trim_ascii_end().parse::<usize>().ok()?;
    let mut channel = OneChannel::new(alloc, "run/initctl", before, room).ok()?;
    let mut out: Vec<u8> = Vec::new(alloc);
    let mut err = Reports::to(Vec::<u8>::new(alloc));
    let words = line_words(alloc, line.trim_ascii_end()).ok()?;
    let status = run_words(&mut channel, alloc, "", words, &mut out, &mut err);
    let ended = end_of(alloc, &channel, before, status).ok()?;
    difference(alloc, &[("its end", ended.as_bytes(), end.as_bytes())]).ok()
}

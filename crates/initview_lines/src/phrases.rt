//! Phrases: text with placeholders for values.

use crate::clocks::{Zone, add_clock, add_time_of_day};
use crate::json::add_quoted;
use crate::words::{
    add_level, add_marked, add_number, add_padded, add_shown, add_stage, add_status, put,
};
use init_words::{Id, Level, Stage, Status};
use std::alloc::AllocError;
use trace_view::Wish;

/// A value in a phrase.
#[derive(Clone, Copy)]
pub(crate) enum Value<'a> {
    Text(&'a [u8]),
    /// A text, padded with spaces to a width.
    Padded(usize, &'a [u8]),
    /// Text from a file, with its control characters escaped for terminals.
    Shown(&'a [u8]),
    /// The beginning of a line of a file, as `Shown`, with a byte order mark escaped.
    Line(&'a [u8]),
    Id(Id),
    /// The number of a child.
    Pid(u32),
    Byte(u8),
    Number(u64),
    /// A number, or null.
    Known(Option<u64>),
    /// A text in quotes, or null.
    Quoted(Option<&'a [u8]>),
    Level(Level),
    Stage(Option<Stage>),
    Status(Option<Status>),
    Wish(Wish),
    /// A reading of the clock, in a form for people.
    Clock(Zone<'a>, u64),
    /// A reading of the clock in the format of RFC 3339, in UTC.
    Time(u64),
}

/// Adds a phrase in which each `@` is replaced by the next value.
pub(crate) fn fill(text: &mut Vec<u8>, phrase: &[u8], values: &[Value]) -> Result<(), AllocError> {
    let mut next = 0;
    for byte in phrase {
        match values.get(next) {
            Some(value) if *byte == b'@' => {
                add_value(text, value)?;
                next += 1;
            }
            _ => text.push(*byte)?,
        }
    }
    Ok(())
}

fn add_value(text: &mut Vec<u8>, value: &Value) -> Result<(), AllocError> {
    match value {
        Value::Text(bytes) => put(text, bytes),
        Value::Padded(width, bytes) => add_padded(text, *width, bytes),
        Value::Shown(bytes) => add_shown(text, bytes),
        Value::Line(bytes) => add_marked(text, bytes),
        Value::Id(id) => put(text, id.as_bytes()),
        Value::Pid(number) => add_number(text, b"", u64::from(*number), b""),
        Value::Byte(byte) => put(text, &[*byte]),
        Value::Number(number) | Value::Known(Some(number)) => add_number(text, b"", *number, b""),
        Value::Quoted(Some(bytes)) => add_quoted(text, bytes),
        Value::Known(None) | Value::Quoted(None) => put(text, b"null"),
        Value::Level(level) => add_level(text, *level),
        Value::Stage(stage) => add_stage(text, *stage),
        Value::Status(status) => add_status(text, *status),
        Value::Wish(wish) => add_wish(text, *wish),
        Value::Clock(zone, time) => add_clock(text, *zone, *time),
        Value::Time(time) => add_time_of_day(text, Zone::Utc, *time),
    }
}

/// Adds the words for a request that is pending.
fn add_wish(text: &mut Vec<u8>, wish: Wish) -> Result<(), AllocError> {
    match wish {
        Wish::Reexec => put(text, b"re-execute init"),
        Wish::Reread => put(text, b"read inittab again"),
        Wish::Level(level) => {
            put(text, b"go to ")?;
            add_level(text, level)
        }
        Wish::News => put(text, b"call entries"),
    }
}

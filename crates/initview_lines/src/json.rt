//! The states of init and its entries as JSON objects. The quoting of texts is proved correct; `tools/rows/initview`
//! tests the rest.

ghost use Rattle.std.specs.Prelude.{◌≡◌, ◌++◌, OnOk};
ghost use Rattle.initview_lines.specs.Json.{quoted, quoted_byte, quoted_bytes};

use crate::lines::{Head, IdRow};
use crate::phrases::{Value, fill};
use crate::wording::{child_state, state_word};
use crate::words::put;
use init_words::{Act, ChildNumber, Id};
use std::alloc::AllocError;
use trace_view::{Row, Why};

fn add_quoted_byte(text: &mut Vec<u8>, byte: u8) -> Result<(), AllocError>
    ensures { OnOk result (text.new.items ≡ text.old.items ++ quoted_byte byte) }
{
    if byte == b'"' || byte == b'\\' {
        text.push(b'\\')?;
    }
    text.push(byte)?;
    Ok(())
}

fn add_quoted_bytes(text: &mut Vec<u8>, bytes: &[u8]) -> Result<(), AllocError>
    ensures { OnOk result (text.new.items ≡ text.old.items ++ quoted_bytes bytes.now) }
{
    let mut rest = bytes;
    while let Some((byte, others)) = rest.split_first() {
        add_quoted_byte(text, *byte)?;
        rest = others;
    }
    Ok(())
}

/// Adds a text in quotes.
pub(crate) fn add_quoted(text: &mut Vec<u8>, bytes: &[u8]) -> Result<(), AllocError>
    ensures { OnOk result (text.new.items ≡ text.old.items ++ quoted bytes.now) }
{
    text.push(b'"')?;
    add_quoted_bytes(text, bytes)?;
    text.push(b'"')?;
    Ok(())
}

fn act_of(act: Option<Act>) -> Option<&'static [u8]> {
    match act {
        Some(act) => Some(act.word()),
        None => None,
    }
}

fn number_of(child: Option<ChildNumber>) -> Option<u64> {
    match child {
        Some(number) => Some(u64::from(number.0)),
        None => None,
    }
}

fn state_of(row: &Row) -> &'static [u8] {
    match row.child {
        Some(_) => child_state(row.excluded),
        None => state_word(row.why),
    }
}

/// Returns the id that init waits for, if that is the reason.
fn awaited(why: &Why) -> Option<&[u8]> {
    match why {
        Why::EarlierOwed(id) | Why::StageOwed(id) => Some(id.as_bytes()),
        Why::ExcludedKept(child) => Some(child.id.as_bytes()),
        _ => None,
    }
}

/// Adds the object for an id and the number of its child, if known, on one line.
pub(crate) fn add_left(
    text: &mut Vec<u8>,
    id: &Id,
    number: Option<ChildNumber>,
) -> Result<(), AllocError> {
    fill(
        text,
        b"{\"id\":@,\"pid\":@}\n",
        &[
            Value::Quoted(Some(id.as_bytes())),
            Value::Known(number_of(number)),
        ],
    )
}

/// Adds the object for an id on one line.
pub(crate) fn add_row(text: &mut Vec<u8>, at: &IdRow) -> Result<(), AllocError> {
    let row = &at.row;
    fill(
        text,
        b"{\"id\":@,\"action\":@,\"state\":@,\"pid\":@",
        &[
            Value::Quoted(Some(at.id.as_bytes())),
            Value::Quoted(act_of(row.act)),
            Value::Quoted(Some(state_of(row))),
            Value::Known(number_of(row.child)),
        ],
    )?;
    add_births(text, row)?;
    fill(
        text,
        b",\"term\":@,\"for\":@,\"held\":@",
        &[
            Value::Known(row.term),
            Value::Quoted(awaited(&row.why)),
            Value::Known(at.held),
        ],
    )?;
    add_last(text, row)
}

fn add_births(text: &mut Vec<u8>, row: &Row) -> Result<(), AllocError> {
    match row.births {
        Some(births) => fill(
            text,
            b",\"born\":@,\"births\":@",
            &[Value::Number(births.latest), Value::Number(births.count)],
        ),
        None => put(text, b",\"born\":null,\"births\":null"),
    }
}

fn add_last(text: &mut Vec<u8>, row: &Row) -> Result<(), AllocError> {
    match row.last {
        Some(ending) => fill(
            text,
            b",\"status\":\"@\",\"ended\":@}\n",
            &[Value::Status(ending.status), Value::Number(ending.time)],
        ),
        None => put(text, b",\"status\":null,\"ended\":null}\n"),
    }
}

fn truth(so: bool) -> &'static [u8] {
    if so { b"true" } else { b"false" }
}

/// Adds the object for init on one line.
pub(crate) fn add_head(text: &mut Vec<u8>, head: &Head) -> Result<(), AllocError> {
    fill(
        text,
        b"{\"stage\":\"@\",\"settled\":@,\"complete\":@,\"clock\":@,\"time\":\"@\",\"grace\":@",
        &[
            Value::Stage(head.stage),
            Value::Text(truth(head.settled)),
            Value::Text(truth(head.complete)),
            Value::Number(head.time),
            Value::Time(head.time),
            Value::Number(head.grace),
        ],
    )?;
    match head.wish {
        Some(wish) => fill(text, b",\"wish\":\"@\"", &[Value::Wish(wish)])?,
        None => put(text, b",\"wish\":null")?,
    }
    match head.goal {
        Some(level) => fill(text, b",\"goal\":\"@\"}\n", &[Value::Level(level)]),
        None => put(text, b",\"goal\":null}\n"),
    }
}

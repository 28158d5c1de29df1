//! Changes each byte of three texts, of both versions, to each other value: the result is either taken over, and handed
//! over again unchanged, or rejected by the first check that fails. Each proper prefix of the texts is rejected as cut.

use crate::handed::{handed, is_answered, taken};
use crate::texts::{OPENING, STARTED, STARTED_OLD, text_of};
use level_core::Core;
use reexec_state::StateFault::{self, Cut, Generation, Line, Unfit, Version};
use std::alloc::Global;
use std::process::Abort;
use std::test::Fail;

/// Bytes with the same answer.
#[derive(Clone, Copy)]
enum Bytes {
    These(&'static [u8]),
    /// Bytes that can begin an id.
    FirstOfId,
    /// Bytes that can follow the first one in an id.
    OfId,
    /// Bytes that form a process text on their own.
    Process,
    /// Bytes that can be in a process text.
    InProcess,
    /// All other bytes for the line.
    Others,
}

use Bytes::{FirstOfId, InProcess, OfId, Others, Process, These};

/// A line, counted from 1, with its columns, counted from 0; the bytes that replace the one there; and the answer. If
/// two rows contain the byte, the first one counts.
type Row = (usize, usize, usize, Bytes, Option<StateFault>);

const ALL: usize = 99;

/// Levels other than 3.
const OTHER_LEVELS: &[u8] = b"012456789S";

/// Digits other than 5.
const OTHER_SECONDS: &[u8] = b"012346789";

const DIGITS: &[u8] = b"0123456789";

/// Runlevels and letters other than 3 in their written form, and the mark for none of them.
const OTHER_MARKS: &[u8] = b"012456789SABC-";

/// The fields of all texts, for bytes that are in no row of the text itself.
const OF_HEADS: &[Row] = &[
    (1, 0, ALL, Others, Some(Version)),
    (2, 11, 11, These(b"23456789"), Some(Generation)),
    (2, 0, ALL, Others, Some(Line(2))),
    (3, 6, 6, These(b"123456789"), None),
    (3, 0, ALL, Others, Some(Line(3))),
    (4, 0, ALL, Others, Some(Line(4))),
    (5, 7, 7, These(OTHER_SECONDS), None),
    (5, 0, ALL, Others, Some(Line(5))),
    (6, 0, ALL, Others, Some(Line(6))),
    // No text has a pending request for re-execution.
    (7, 5, 5, These(b"1"), None),
    (7, 10, 12, These(b"1"), None),
    (7, 14, 16, These(b"1"), None),
    (7, 0, ALL, Others, Some(Line(7))),
    (8, 0, ALL, Others, Some(Line(8))),
    (9, 0, ALL, Others, Some(Line(9))),
];

/// The stage and the table of a core with two open starts.
const OF_TABLE: &[Row] = &[
    // The level must be the level of the goal.
    (4, 6, 6, These(OTHER_LEVELS), Some(Unfit)),
    (4, 8, 8, These(OTHER_SECONDS), None),
    (5, 5, 5, These(OTHER_LEVELS), Some(Unfit)),
    (6, 6, 6, These(b"0"), None),
    (6, 7, 7, These(b"1"), None),
    // With fewer entries, the next line is not a record; with more, the first record is not an entry.
    (8, 6, 6, These(b"0"), Some(Line(9))),
    (8, 6, 6, These(b"1"), Some(Line(10))),
    (8, 6, 6, These(b"2"), Some(Line(11))),
    (8, 6, 6, These(b"456789"), Some(Line(12))),
    // The records of the table's ids come first, in its order.
    (9, 0, 0, FirstOfId, Some(Unfit)),
    (9, 1, 1, OfId, Some(Unfit)),
    (9, 3, 3, These(OTHER_MARKS), None),
    // Another entry has the id b.
    (10, 0, 0, These(b"b"), Some(Line(11))),
    (10, 0, 0, FirstOfId, Some(Unfit)),
    // A start is open although the entry does not start in the stage.
    (10, 2, 2, These(OTHER_MARKS), Some(Unfit)),
    (10, 12, 12, Process, None),
    // The next entry becomes part of the process, and a record is in its place.
    (10, 13, 13, InProcess, Some(Line(11))),
    (10, 0, ALL, Others, Some(Line(10))),
    (11, 0, 0, These(b"a"), Some(Line(11))),
    (11, 0, 0, FirstOfId, Some(Unfit)),
    (11, 2, 2, These(OTHER_MARKS), Some(Unfit)),
    (11, 9, 9, Process, None),
    // The first record becomes part of the process, and the last line counts one line too many.
    (11, 10, 10, InProcess, Some(Line(14))),
    (11, 0, ALL, Others, Some(Line(11))),
];

/// The records of both versions.
const OF_RECORDS: &[Row] = &[
    (12, 5, 5, FirstOfId, Some(Unfit)),
    (12, 6, 6, OfId, Some(Unfit)),
    // A child has both a number and an action.
    (12, 8, 8, These(DIGITS), Some(Unfit)),
    (12, 16, 16, These(b"1"), None),
    // Only power and ondemand entries are called; a look and a missed signal need a child.
    (12, 17, 19, These(b"1"), Some(Unfit)),
    // Only respawn and ondemand entries have starts and holds.
    (12, 21, 21, These(DIGITS), Some(Unfit)),
    (12, 23, 23, These(DIGITS), Some(Unfit)),
    (12, 0, ALL, Others, Some(Line(12))),
    (13, 5, 5, FirstOfId, Some(Unfit)),
    (13, 7, 7, These(DIGITS), Some(Unfit)),
    // A start was requested.
    (13, 19, 19, These(b"0"), Some(Unfit)),
    (13, 20, 22, These(b"1"), Some(Unfit)),
    // A hold follows ten starts, and no start is later than the current time.
    (13, 24, 24, These(DIGITS), Some(Unfit)),
    (13, 26, 26, These(b"123456789"), Some(Unfit)),
    (13, 26, 26, These(b"-"), None),
    (13, 0, ALL, Others, Some(Line(13))),
    (14, 5, 5, FirstOfId, Some(Unfit)),
    (14, 7, 7, These(DIGITS), Some(Unfit)),
    (14, 19, 19, These(b"0"), Some(Unfit)),
    (14, 20, 22, These(b"1"), Some(Unfit)),
    (14, 24, 24, These(DIGITS), Some(Unfit)),
    (14, 26, 26, These(DIGITS), Some(Unfit)),
    (14, 0, ALL, Others, Some(Line(14))),
    (15, 0, 3, Others, Some(Cut)),
    (15, 4, 5, These(b"\n"), Some(Cut)),
    (15, 6, 6, Others, Some(Cut)),
    (15, 0, ALL, Others, Some(Line(15))),
];

/// The lines and answers of version 2 only.
const OF_NEW: &[Row] = &[
    // Records of version 1 lack the status of the last child.
    (1, 12, 12, These(b"1"), Some(Line(12))),
    (13, 33, 33, These(b"123456789"), None),
    // The last line does not begin with its word.
    (14, 34, 34, Others, Some(Cut)),
];

/// The lines and answers of version 1 only.
const OF_OLD: &[Row] = &[
    // Records of version 2 contain the status of the last child.
    (1, 12, 12, These(b"2"), Some(Line(12))),
    (14, 27, 27, Others, Some(Cut)),
];

/// A core that has not entered a stage.
const OF_OPENING: &[Row] = &[
    // Without records both versions have the same text.
    (1, 12, 12, These(b"1"), None),
    (5, 5, 5, These(OTHER_LEVELS), None),
    // Boot was not entered, and no level is announced.
    (6, 6, 7, These(b"1"), Some(Unfit)),
    (8, 6, 6, These(b"123456789"), Some(Line(9))),
    (8, 7, 7, Others, Some(Cut)),
    (9, 0, 3, Others, Some(Cut)),
    (9, 4, 4, These(b"\n"), Some(Cut)),
    (9, 5, 5, Others, Some(Cut)),
];

/// The version and the lines of a text of generation 1, and the rows for its bytes.
type Part = (u64, &'static str, &'static [&'static [Row]]);

const PARTS: &[Part] = &[
    (2, STARTED, &[OF_NEW, OF_TABLE, OF_RECORDS, OF_HEADS]),
    // This text lacks the statuses of the last children.
    (1, STARTED_OLD, &[OF_OLD, OF_TABLE, OF_RECORDS, OF_HEADS]),
    (2, OPENING, &[OF_OPENING, OF_HEADS]),
];

fn has(bytes: Bytes, byte: u8) -> bool {
    let is_of_id = byte.is_ascii_graphic() && byte != b':';
    let is_in_process = byte.is_ascii() && byte != 0;
    match bytes {
        These(all) => all.contains(&byte),
        FirstOfId => is_of_id && byte != b'#',
        OfId => is_of_id,
        Process => is_in_process && !b" \t\n+".contains(&byte),
        InProcess => is_in_process,
        Others => true,
    }
}

/// Returns the answer for a byte at this line and column. The columns of a row include both ends.
fn wanted(part: &Part, line: usize, column: usize, byte: u8) -> Option<StateFault> {
    for rows in part.2 {
        for (global, first, last, bytes, want) in *rows {
            if *global == line && *first <= column && column <= *last && has(*bytes, byte) {
                return *want;
            }
        }
    }
    None
}

/// Reports whether the changed text has this answer, and is handed over unchanged if it is taken over.
fn is_right(global: Global, part: &Part, text: &[u8], want: Option<StateFault>) -> bool {
    let front = text.len().saturating_sub(part.1.len());
    match taken(global, global, text, 1) {
        Ok(mut core) => match str::from_utf8(text.get(front..).unwrap_or(b"")) {
            Ok(lines) => want.is_none() && handed(global, &mut core, 2, lines).is_some(),
            Err(_) => false,
        },
        Err(why) => want == Some(why),
    }
}

/// Returns the first replacement for the byte at this position, line and column with which a text has another answer
/// than in the rows.
fn wrong_byte(
    global: Global,
    part: &Part,
    text: &[u8],
    at: usize,
    (line, column): (usize, usize),
) -> Option<u8> {
    let mut changed = Vec::from_slice(global, text).ok()?;
    let old = *text.get(at)?;
    for byte in 0..=255u8 {
        if let Some(position) = changed.get_mut(at) {
            *position = byte;
        }
        let want = wanted(part, line, column, byte);
        if byte != old && !is_right(global, part, &changed, want) {
            return Some(byte);
        }
    }
    None
}

/// Returns the first position in these lines at which a text has another answer than the rows, and the byte there, or
/// none if the prefix before it is not rejected as cut.
fn wrong_in(
    global: Global,
    part: &Part,
    text: &[u8],
    first: usize,
    last: usize,
) -> Option<(usize, Option<u8>)> {
    let (mut line, mut column) = (1usize, 0usize);
    for (at, byte) in text.iter().enumerate() {
        if first <= line && line <= last {
            if !is_answered(global, text.get(..at)?, 1, Some(Cut)) {
                return Some((at, None));
            }
            let wrong = wrong_byte(global, part, text, at, (line, column));
            if wrong.is_some() {
                return Some((at, wrong));
            }
        }
        column = column.wrapping_add(1);
        if *byte == b'\n' {
            line = line.wrapping_add(1);
            column = 0;
        }
    }
    None
}

fn are_right<R: Abort>(rt: &R, global: Global, first: usize, last: usize) -> Result<(), Fail> {
    for part in PARTS {
        let text = text_of(global, part.0, 1, part.1)?;
        let wrong = wrong_in(global, part, text.as_bytes(), first, last);
        assert!(rt; wrong.is_none(), "{wrong:?}: {text}");
    }
    Ok(())
}

#[test]
fn each_byte_of_fields_is_changed(rt: HostRuntime) -> Result<(), Fail> {
    are_right(&rt, rt.alloc(), 1, 7)
}

#[test]
fn each_byte_of_tables_is_changed(rt: HostRuntime) -> Result<(), Fail> {
    are_right(&rt, rt.alloc(), 8, 11)
}

#[test]
fn each_byte_of_records_is_changed(rt: HostRuntime) -> Result<(), Fail> {
    are_right(&rt, rt.alloc(), 12, 13)
}

#[test]
fn each_byte_of_ends_is_changed(rt: HostRuntime) -> Result<(), Fail> {
    are_right(&rt, rt.alloc(), 14, ALL)
}

//! Tests of the text that is written for a core, and of the values that are read from a text.

use crate::cores::{does, opened};
use crate::handed::{is_text, parts_of};
use crate::handover_tests::{STARTED_TABLE, STARTS};
use crate::texts::{STARTED_OLD, text_of};
use child_table::Stop;
use core_model::{CoreFields, Parts, PlainSlot};
use core_text::{StateFault, write_state};
use init_words::{Act, ChildNumber, Level, OrderKind, Stage, Status};
use std::alloc::Global;
use trace_events::{CallSet, Goal};

/// A record: its id, child, action, order and stop, its flags in the order asked, called, look, missed, the end of its
/// hold, its starts, and the status of its last child.
type Kept = (
    &'static str,
    (Option<u32>, Option<Act>, Option<OrderKind>),
    [bool; 4],
    (Option<Stop>, Option<u64>, Option<Status>),
    &'static [u64],
);

const ASKED: [bool; 4] = [true, false, false, false];

const STARTED_RECORDS: &[Kept] = &[
    (
        "id",
        (None, None, None),
        [false; 4],
        (None, None, None),
        &[],
    ),
    (
        "a",
        (None, None, Some(OrderKind::Start)),
        ASKED,
        (None, None, None),
        &[0],
    ),
    (
        "b",
        (None, None, Some(OrderKind::Start)),
        ASKED,
        (None, None, None),
        &[],
    ),
];

const STARTED_HEADS: CoreFields = CoreFields {
    generation: 1,
    time: 0,
    stage: Some(Stage::Run(Level::L3)),
    grace: 5,
    goal: Goal {
        level: Level::L3,
        grace: 5,
    },
    booted: true,
    announced: false,
    reread: false,
    reexec: false,
    level_wish: None,
    pending: CallSet {
        fail: false,
        fail_now: false,
        ok: false,
        a: false,
        b: false,
        c: false,
    },
};

/// Each word has a different value.
const BUSY: &str = "clock 700\nstage S 3600\ngoal 0 0\nflags 01\nwish 10 9:8 101 010\n\
    table 1\np:S012:powerokwait:+run it: now\n\
    slot p 4294967295 powerokwait look term:690 0111 1000 0,1,2,3,4,5,6,7,8,600 exit:255\n\
    slot old 0 boot kill due 1000 - 9 killed\nslot ~ 7 off term kill:18446744073709551615 0001 0 - -\nend 12\n";

const BUSY_TABLE: &str = "p:S012:powerokwait:+run it: now\n";

/// The fields of that text without an entry.
const BUSY_ALONE: &str =
    "clock 700\nstage S 3600\ngoal 0 0\nflags 01\nwish 10 9:8 101 010\ntable 0\nend 8\n";

const BUSY_RECORDS: &[Kept] = &[
    (
        "p",
        (
            Some(4_294_967_295),
            Some(Act::Powerokwait),
            Some(OrderKind::Look),
        ),
        [false, true, true, true],
        (Some(Stop::Termed(690)), Some(1000), Some(Status::Exit(255))),
        &[0, 1, 2, 3, 4, 5, 6, 7, 8, 600],
    ),
    (
        "old",
        (Some(0), Some(Act::Boot), Some(OrderKind::Kill)),
        ASKED,
        (Some(Stop::Due), None, Some(Status::Killed)),
        &[9],
    ),
    (
        "~",
        (Some(7), Some(Act::Off), Some(OrderKind::Term)),
        [false, false, false, true],
        (Some(Stop::Killed(u64::MAX)), Some(0), None),
        &[],
    ),
];

const BUSY_HEADS: CoreFields = CoreFields {
    generation: u64::MAX,
    time: 700,
    stage: Some(Stage::Run(Level::S)),
    grace: 3600,
    goal: Goal {
        level: Level::L0,
        grace: 0,
    },
    booted: false,
    announced: true,
    reread: true,
    reexec: false,
    level_wish: Some(Goal {
        level: Level::L9,
        grace: 8,
    }),
    pending: CallSet {
        fail: true,
        fail_now: false,
        ok: true,
        a: false,
        b: true,
        c: false,
    },
};

fn are_fields(fields: &CoreFields, want: &CoreFields) -> bool {
    let flags = [
        fields.booted,
        fields.announced,
        fields.reread,
        fields.reexec,
    ];
    (fields.generation, fields.time, fields.grace) == (want.generation, want.time, want.grace)
        && (fields.stage, fields.goal, fields.level_wish)
            == (want.stage, want.goal, want.level_wish)
        && flags == [want.booted, want.announced, want.reread, want.reexec]
        && fields.pending == want.pending
}

fn is_kept(record: &PlainSlot, want: &Kept) -> bool {
    let (id, of_child, flags, of_end, starts) = *want;
    let child = match record.child {
        Some(ChildNumber(number)) => Some(number),
        None => None,
    };
    record.id.as_bytes() == id.as_bytes()
        && (child, record.act, record.order) == of_child
        && [record.asked, record.called, record.look, record.missed] == flags
        && (record.stop, record.held_until, record.last) == of_end
        && record.starts.as_slice() == starts
}

fn are_parts(parts: &Parts, fields: &CoreFields, rows: &[Kept]) -> bool {
    for (record, want) in parts.records.iter().zip(rows) {
        if !is_kept(record, want) {
            return false;
        }
    }
    are_fields(&parts.fields, fields) && parts.records.len() == rows.len()
}

/// The lines of a version, and their contents: the fields, the table and the records.
type Said = (u64, &'static str, CoreFields, &'static str, &'static [Kept]);

const SAID: &[Said] = &[
    (
        1,
        STARTED_OLD,
        STARTED_HEADS,
        STARTED_TABLE,
        STARTED_RECORDS,
    ),
    (2, BUSY, BUSY_HEADS, BUSY_TABLE, BUSY_RECORDS),
];

fn is_said(global: Global, row: &Said) -> Result<bool, StateFault> {
    let (version, lines, fields, table, rows) = row;
    let text = text_of(global, *version, fields.generation, lines)?;
    let parts = parts_of(global, global, text.as_bytes(), fields.generation)?;
    let written = inittab_text::write(global, &parts.table)?;
    Ok(are_parts(&parts, fields, rows) && written.as_slice() == table.as_bytes())
}

/// An inittab, the steps of a core for it, if any, the fields to write, and the lines that must be written for the core
/// with these fields.
type Written = (&'static str, &'static str, CoreFields, &'static str);

const WRITTEN: &[Written] = &[
    (STARTED_TABLE, STARTS, STARTED_HEADS, STARTED_OLD),
    ("", "", BUSY_HEADS, BUSY_ALONE),
];

fn is_written(global: Global, written: &Written) -> Option<bool> {
    let (inittab, steps, fields, lines) = written;
    let mut core = opened(global, inittab)?;
    let is_done = steps.is_empty() || does(global, global, &mut core, steps);
    let is_at = (core.time(), core.stage(), core.goal())
        == (fields.time, fields.stage, fields.goal);
    let text = write_state(global, fields, core.table(), core.slots().as_slice()).ok()?;
    Some(is_done && is_at != steps.is_empty() && is_text(global, &text, fields.generation, lines)?)
}

#[test]
fn values_are_read_and_written(rt: HostRuntime) {
    for row in SAID {
        assert!(rt; is_said(rt.alloc(), row) == Ok(true), "{}", row.1);
    }
    for written in WRITTEN {
        assert!(rt;
            is_written(rt.alloc(), written) == Some(true),
            "{}",
            written.3
        );
    }
}

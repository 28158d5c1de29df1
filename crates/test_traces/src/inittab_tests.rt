//! Tests of texts and files that are read as one table, and of tables that are written. The cases are rows.

use crate::verdicts::or_difference;
use init_words::{Act, Id, Level, Memory, Part};
use inittab_text::{Table, TableFault, read_parts, read_written};
use std::alloc::Global;
use std::fmt::{Display, Write};
use std::test::Fail;
use test_support::{boxed, part_of};
use text_lines::cut;

/// Parts whose lines contain their expected results, and the default level of their table. A line is written unchanged,
/// or as the text after its `>`; a line that ends with `>` is not an entry, and a line with `>!` has a fault.
type Row = (&'static [&'static [u8]], Option<Level>);

const ROWS: &[Row] = &[
    // Without parts, the table is empty.
    (&[], None),
    // A last line without a newline ends with its part; an id of an earlier part is not accepted again.
    (
        &[
            b"id:3:initdefault:\na:3:once:x\n",
            b"b:3:once:y",
            b"# c>\na:3:once:z>!duplicate id\n",
        ],
        Some(Level::L3),
    ),
    // Lines are counted in each part, and parts without lines count as parts.
    (
        &[
            b">\nx>!too few fields\n",
            b"",
            b"y>!too few fields",
            b"a:3:once:x\nb:3:bogus:x>!unknown action\n>\na:3:once:y>!duplicate id",
            b"c:3:off:",
        ],
        None,
    ),
    // The default level comes from the first initdefault that names one, in any part.
    (
        &[
            b"i::initdefault:>i:-:initdefault:",
            b"j:52:initdefault:",
            b"k:4:initdefault:",
        ],
        Some(Level::L5),
    ),
    (
        &[b"a:3:wait:x\ni:abc:initdefault:>i:ABC:initdefault:\n"],
        None,
    ),
    (
        &[b"i:as5:initdefault:>i:AS5:initdefault:\nj:2:initdefault:\n"],
        Some(Level::S),
    ),
    (
        &[b"i::initdefault:>i:-:initdefault:\nj:2:initdefault:\n"],
        Some(Level::L2),
    ),
    (
        &[b"a:5:wait:x\ni:31:initdefault:y>i:31:initdefault:"],
        Some(Level::L3),
    ),
    (&[b"a:3:wait:x"], None),
    // Faulty lines are ignored, and each kind of fault occurs.
    (&[FIVE], None),
    (&[RESPAWNS], None),
    (&[CHECKED], None),
    (&[LINES], Some(Level::S)),
    (&[IN_USE], Some(Level::L2)),
];

/// Three of the five lines are ignored.
const FIVE: &[u8] = b"toolong:3:once:x
a:3:bogus:x>!unknown action
a:3:once:>!no process
b:3:off:
b:2:once:x>!duplicate id
";

const RESPAWNS: &[u8] = b"ninebytes:3:once:x>!bad id
a:3:bogus:x>!unknown action
a:3:respawn:>!no process
b:3:respawn:y
b:2:wait:x>!duplicate id
";

const CHECKED: &[u8] = b"# a comment::>
 \t# another>
z:3:wait:x
 \t>
>
a:3:wait>!too few fields
:3:wait:x>!bad id
a:012345678901:wait:x>!runlevels too long
a:3:Wait:x>!unknown action
a:3:wait: \t>!no process
a:3:boot:+ >!no process
a:3:wait:\xff>!bad text
a:3:wait:x\0>!bad text
z:3:wait:x>!duplicate id
ninebytes:012345678901:Wait:>!bad id
z:012345678901:wait:>!runlevels too long
z:\xff:wait:>!no process
a#b>!too few fields";

const LINES: &[u8] = b" l3:3321x:wait:/etc/rc 3>l3:321:wait:/etc/rc 3
r::respawn:+getty a:b>r:0123456789:respawn:+getty a:b
pf::powerwait:p>pf:S0123456789:powerwait:p
si:5:sysinit:rcS>si::sysinit:rcS
k:x:once:y>k:-:once:y
i::initdefault:>i:-:initdefault:
id:s:initdefault:z>id:S:initdefault:
~~:S:wait:/sbin/sulogin
o:c3Cba:ondemand:o>o:C3BA:ondemand:o
kb::kbrequest:>kb:0123456789:kbrequest:
ca:12345:ctrlaltdel:/sbin/shutdown -t1 -a -r now";

const IN_USE: &[u8] = b"# /etc/inittab: init(8) configuration.>
>
# The default runlevel.>
id:2:initdefault:
>
# Boot-time system configuration/initialization script.>
si::sysinit:/etc/init.d/rcS
>
# What to do in single-user mode.>
~~:S:wait:/sbin/sulogin --force
>
l0:0:wait:/etc/init.d/rc 0
l1:1:wait:/etc/init.d/rc 1
l2:2:wait:/etc/init.d/rc 2
l6:6:wait:/etc/init.d/rc 6
z6:6:respawn:/sbin/sulogin --force
>
ca:12345:ctrlaltdel:/sbin/shutdown -t1 -a -r now
>
#kb::kbrequest:/bin/echo \"Keyboard Request--edit /etc/inittab to let this work.\">
>
pf::powerwait:/etc/init.d/powerfail start>pf:S0123456789:powerwait:/etc/init.d/powerfail start
pn::powerfailnow:/etc/init.d/powerfail now>pn:S0123456789:powerfailnow:/etc/init.d/powerfail now
po::powerokwait:/etc/init.d/powerfail stop>po:S0123456789:powerokwait:/etc/init.d/powerfail stop
>
1:2345:respawn:/sbin/getty --noclear 38400 tty1
2:23:respawn:/sbin/getty 38400 tty2
#T0:23:respawn:/sbin/getty -L ttyS0 9600 vt100>
";

/// The contents of a row: its parts, the written form of their table, and their faults.
#[derive(Drop)]
struct Want {
    parts: Vec<Part>,
    written: Vec<u8>,
    faults: String,
    level: Option<Level>,
}

/// Adds the expected result of a line of a part, with its number.
fn add_outcome(
    want: &mut Want,
    position: usize,
    number: usize,
    outcome: &[u8],
) -> Result<(), Fail> {
    match outcome {
        [] => {}
        [b'!', fault @ ..] => {
            let fault = str::from_utf8(fault)?;
            writeln!(
                want.faults,
                "inittab part {position} line {number}: {fault}"
            )?;
        }
        _ => {
            want.written.extend_from_slice(outcome)?;
            want.written.push(b'\n')?;
        }
    }
    Ok(())
}

/// Adds a part, whose lines contain their expected results.
fn add_part(alloc: Global, want: &mut Want, position: usize, text: &[u8]) -> Result<(), Fail> {
    let mut bytes = Vec::new(alloc);
    for (at, line) in text.split(|byte| *byte == b'\n').enumerate() {
        let (line, outcome) = cut(b'>', line).unwrap_or((line, line));
        if at > 0 {
            bytes.push(b'\n')?;
        }
        bytes.extend_from_slice(line)?;
        add_outcome(want, position, at.saturating_add(1), outcome)?;
    }
    want.parts.push(part_of(alloc, "part", &bytes)?)?;
    Ok(())
}

fn want_of(alloc: Global, (parts, level): &Row) -> Result<Box<Want>, Fail> {
    let want = Want {
        parts: Vec::new(alloc),
        written: Vec::new(alloc),
        faults: String::new(alloc),
        level: *level,
    };
    let mut want = boxed(alloc, want)?;
    for (position, text) in parts.iter().enumerate() {
        add_part(alloc, &mut want, position, text)?;
    }
    Ok(want)
}

/// Returns the faults, one per line.
fn report_of<T: Display>(alloc: Global, faults: &[T]) -> Result<String, Fail> {
    let mut report = String::new(alloc);
    for fault in faults {
        writeln!(report, "{fault}")?;
    }
    Ok(report)
}

fn head_text(alloc: Global, entries: usize, level: Option<Level>) -> Result<String, Fail> {
    let code = match level {
        Some(level) => char::from(level.code()),
        None => '-',
    };
    Ok(format!(in alloc; "{entries} entries, default level {code}")?)
}

/// Returns the difference between the table and the faults and those of the row; empty if there is none.
fn table_difference<T: Display>(
    alloc: Global,
    table: &Table,
    faults: &[T],
    want: &Want,
) -> Result<String, Fail> {
    let written = inittab_text::write(alloc, table)?;
    let report = report_of(alloc, faults)?;
    let lines = want.written.split(|byte| *byte == b'\n').count();
    let got = head_text(alloc, table.len(), table.default_level())?;
    let wanted_head = head_text(alloc, lines.saturating_sub(1), want.level)?;
    let (table, wanted) = (written.as_slice(), want.written.as_slice());
    let (report, faults) = (report.as_bytes(), want.faults.as_bytes());
    let told = String::new(alloc);
    let told = or_difference(alloc, told, "its table", table, wanted)?;
    let told = or_difference(alloc, told, "its faults", report, faults)?;
    Ok(or_difference(
        alloc,
        told,
        "the table",
        got.as_bytes(),
        wanted_head.as_bytes(),
    )?)
}

fn parts_difference(alloc: Global, want: &Want) -> Result<String, Fail> {
    let (table, faults) = read_parts(alloc, &want.parts)?;
    table_difference(alloc, &table, faults.as_slice(), want)
}

/// Reports whether the text is a written form, and the copy of its table is written in the same form.
fn is_written(alloc: Global, text: &[u8]) -> Result<bool, Memory> {
    match read_written(alloc, text)? {
        Some(table) => {
            let copy = table.copy(alloc)?;
            Ok(inittab_text::write(alloc, &copy)?.as_slice() == text)
        }
        None => Ok(false),
    }
}

/// Returns the difference for the only text of a row, if it has one. It must be read as a written form exactly if it is
/// one.
fn text_difference(alloc: Global, want: &mut Want) -> Result<String, Fail> {
    let [part] = want.parts.as_slice() else {
        return Ok(String::new(alloc));
    };
    let text = part.bytes.as_slice();
    if is_written(alloc, text)? != (text == want.written.as_slice()) {
        return Ok(String::from_str(alloc, "as one that is written")?);
    }
    let (table, faults) = inittab_text::read(alloc, text)?;
    want.faults = want.faults.replace(alloc, " part 0", "")?;
    table_difference(alloc, &table, faults.as_slice(), want)
}

#[test]
fn texts_are_read_and_written(rt: HostRuntime) -> Result<(), Fail> {
    for (position, row) in ROWS.iter().enumerate() {
        let mut want = want_of(rt.alloc(), row)?;
        let told = parts_difference(rt.alloc(), &want)?;
        assert!(rt; told.is_empty(), "row {position} of ROWS, from 0: {told}");
        assert!(rt;
            is_written(rt.alloc(), &want.written)?,
            "row {position} of ROWS, from 0"
        );
        let told = text_difference(rt.alloc(), &mut want)?;
        assert!(rt;
            told.is_empty(),
            "row {position} of ROWS, from 0, by itself: {told}"
        );
    }
    Ok(())
}

/// Ids and their actions in the table of `FIVE`; the ids in the table are in table order.
const FOUND: &[(&[u8], Option<Act>)] = &[
    (b"toolong", Some(Act::Once)),
    (b"b", Some(Act::Off)),
    (b"a", None),
];

/// Tests that the table's entries are found by position and by id.
#[test]
fn entries_are_found(rt: HostRuntime) -> Result<(), Fail> {
    let want = want_of(rt.alloc(), &(&[FIVE], None))?;
    let (table, _) = read_parts(rt.alloc(), &want.parts)?;
    for (position, (id, act)) in FOUND.iter().enumerate() {
        let of_id = match Id::read(id) {
            Some(id) => table.get(&id).map(|entry| entry.act),
            None => None,
        };
        assert!(rt;
            table.at(position).map(|entry| entry.act) == *act && of_id == *act,
            "{position}"
        );
    }
    Ok(())
}

/// Returns the lines of this number of wait entries, each with a different id and a process of this length.
fn lines_of(alloc: Global, count: u32, length: u32) -> Result<String, Fail> {
    let mut text = String::new(alloc);
    for number in 0..count {
        write!(text, "{number}:3:wait:")?;
        for _ in 0..length {
            text.push('x')?;
        }
        text.push('\n')?;
    }
    Ok(text)
}

/// The number of lines, the length of the process of each, the number of entries that are read, and the faults.
const LINE_LIMITS: &[(u32, u32, usize, &str)] = &[
    (1, 128, 0, "inittab line 1: process too long\n"),
    (4_097, 1, 4_096, "inittab line 4097: too many entries\n"),
    (4_096, 127, 4_096, ""),
];

/// Reports whether this number of entries is read from the lines, with these faults; if there are none, the lines must
/// be in their written form.
fn are_lines(alloc: Global, lines: &[u8], len: usize, want: &str) -> Result<bool, Fail> {
    let (table, faults) = inittab_text::read(alloc, lines)?;
    let report = report_of(alloc, faults.as_slice())?;
    Ok(
        table.len() == len
            && report.as_str() == want
            && (!want.is_empty() || is_written(alloc, lines)?),
    )
}

#[test]
fn lines_have_limits(rt: HostRuntime) -> Result<(), Fail> {
    for (count, length, len, want) in LINE_LIMITS {
        let lines = lines_of(rt.alloc(), *count, *length)?;
        assert!(rt;
            are_lines(rt.alloc(), lines.as_bytes(), *len, want)?,
            "{count} of {length}"
        );
    }
    Ok(())
}

/// Returns parts of this size, which consist of comments.
fn comments(alloc: Global, count: u32, bytes: u32) -> Result<Vec<Part>, Fail> {
    let mut text = Vec::new(alloc);
    for _ in 0..bytes {
        text.push(b'#')?;
    }
    let mut parts = Vec::new(alloc);
    for _ in 0..count {
        parts.push(part_of(alloc, "part", &text)?)?;
    }
    Ok(parts)
}

const TOO_LONG: &str = "inittab is longer than 1048576 bytes";

const TOO_MANY: &str = "inittab has more than 256 files";

/// The number of parts, their size, and the reason why they are rejected, if they are.
const LIMITS: &[(u32, u32, &str)] = &[
    (256, 0, ""),
    (257, 0, TOO_MANY),
    (256, 4_096, ""),
    (255, 4_113, TOO_LONG),
    (257, 4_097, TOO_MANY),
    (1, 1_048_576, ""),
    (1, 1_048_577, TOO_LONG),
    (2, 524_289, TOO_LONG),
];

/// Reports whether a reading is rejected for this reason; without a reason, it must have no entries.
fn is_told<T>(
    alloc: Global,
    given: &Result<(Table, Vec<T>), TableFault>,
    want: &str,
) -> Result<bool, Memory> {
    match given {
        Ok((table, faults)) => Ok(want.is_empty() && table.len() == 0 && faults.is_empty()),
        Err(fault) => Ok(format!(in alloc; "{fault}")?.as_str() == want),
    }
}

fn are_limited(alloc: Global, parts: &[Part], want: &str) -> Result<bool, Memory> {
    if let [part] = parts {
        if !is_told(alloc, &inittab_text::read(alloc, &part.bytes), want)? {
            return Ok(false);
        }
    }
    is_told(alloc, &read_parts(alloc, parts), want)
}

#[test]
fn parts_have_limits_together(rt: HostRuntime) -> Result<(), Fail> {
    for (count, bytes, want) in LIMITS {
        let parts = comments(rt.alloc(), *count, *bytes)?;
        assert!(rt;
            are_limited(rt.alloc(), &parts, want)?,
            "{count} of {bytes}"
        );
    }
    Ok(())
}

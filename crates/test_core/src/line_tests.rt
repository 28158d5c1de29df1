//! Replaces lines of texts, and checks whether the texts are taken over or rejected; also tests complete texts, and
//! tables with many entries.

use crate::handed::is_answered;
use crate::texts::{ENDED, OPENING, SETTLED, STARTED, STARTED_OLD, text_of};
use core_text::StateFault::{self, Cut, Generation, Line, Unfit, Version};
use core_text::generation_of;
use std::alloc::Global;
use std::fmt::Write;
use std::test::Fail;
use test_support::row_difference;

// The rows of a text: a line, counted from 1, or the first and the last of several; the answer; and the replacements,
// each of which is tried, separated by `|`. In a replacement `/` separates lines, and an empty one is no line.

const OF_STARTED_OLD: &str = "\
# Each version has lines of its own.
1 line 12:initd-state 2
1 version:initd-state 3|initd-state 9|initd-state 01|initd-state 1 |initd-state|Initd-state 1|/initd-state 1|
2 line 2:|generation|generation |generation 0|generation 00|generation 01|generation -1|generation +1|generation 1x
2 line 2:generation 1 |generation  1|generation 1 1|generation\t1|generation 1\r| generation 1|Generation 1
2 line 2:generations 1|generation 18446744073709551616|generation 99999999999999999999999|clock 0|clock 0/generation 1
2 generation:generation 18446744073709551615|generation 2
2 line 3:generation 1/generation 1
3 line 3:|clock|clock |clock -|clock 00|clock 01|clock 1:0|clock 0 0|clock 18446744073709551616|/clock 0
3 line 4:clock 0/clock 0
4 line 4:|stage|stage 3|stage 3 |stage  5|stage none|stage none 5|stage none 00|stage - 0|stage 4 3601|stage 3 05
4 line 4:stage 3 -|stage 3 65541|stage 3 5 5|stage 3:5|stage 10 5|stage s 5|stage A 5|stage Boot 5|stage sysini 5
4 line 4:goal 3 5
4 line 5:stage 3 5/stage 3 5
5 line 5:|goal|goal 3|goal 5|goal none 0|goal - 0|goal sysinit 5|goal boot 5|goal s 5|goal 33 5|goal B 5|goal 3:5
5 line 5:goal 3 3601|goal 3 5 |goal 3 00
5 line 6:goal 3 5/goal 3 5
6 line 6:|flags|flags |flags 1|flags 100|flags 1 0|flags 2 0|flags 20|flags 02|flags -0|flags 0x|flags 10 |flag 10
6 line 7:flags 10/flags 10
7 line 7:|wish|wish 00|wish 00 -|wish 00 - 000|wish 00 - 000000|wish 00 000 000|wish 01 - 000 000|wish 11 - 000 000
7 line 7:wish 20 - 000 000|wish 0 - 000 000|wish 000 - 000 000|wish - - 000 000|wish 00 3 000 000|wish 00 3: 000 000
7 line 7:wish 00 :5 000 000|wish 00 3:05 000 000|wish 00 3:3601 000 000|wish 00 3:5:5 000 000|wish 00 A:5 000 000
7 line 7:wish 00 s:5 000 000|wish 00 none 000 000|wish 00 -:5 000 000|wish 00 3 5 000 000|wish 00  000 000
7 line 7:wish 00 3:5 0000 000|wish 00 3:5 00 000|wish 00 3:5 200 000|wish 00 3:5 020 000|wish 00 3:5 00- 000
7 line 7:wish 00 3:5 - 000|wish 00 3:5 000 0000|wish 00 3:5 000 00|wish 00 3:5 000 200|wish 00 3:5 000 0A0
7 line 7:wish 00 3:5 000 002|wish 00 3:5 000 000 |wish 00 3:5 000 000 000
7 line 8:wish 00 - 000 000/wish 00 - 000 000
# The table.
8 line 8:|table|table |table -|table 03|table 3 |table 3 3|table 18446744073709551616|slot id - - - - 0000 - -
# The first line that is not the table's, or is one too many.
8 line 9:table 0|table 3/table 3|table 3/
8 line 10:table 1
8 line 11:table 2
8 line 12:table 4|table 512|table 513|table 18446744073709551615
9 line 11:
9 line 9:id:3:initdefault:x|id::initdefault:| id:3:initdefault:|id:3:initdefault|# id|/id:3:initdefault:
10 line 10:a:33:respawn:x|a::respawn:x|a:s:respawn:x|a:3x:respawn:x|a:3:Respawn:x|a:3:respawn: |a:3:respawn
10 line 10:a:3:sysinit:x|abcde:3:respawn:x
# The first of two.
9 line 9:abcde:3:initdefault:/x
10 line 10::3:respawn:x|id:3:respawn:x|id:3:initdefault:|slot a - - start - 1000 - 0|end 14
11 line 11:|a:3:once:y|b:3:once:
11 line 12:b:3:once:y/c:3:once:y
# The records.
12 line 12:table 3|id:3:initdefault:
13 line 13:b:3:once:y|end 14|slot|slot |slot a|slot a -|slot a - -|slot a - - start|slot a - - start -
13 line 13:slot a - - start - 1000|slot a - - start - 1000 - |slot a - - start - 1000 - 0 |slot a - - start - 1000 -
13 line 13:slot a - - start - 1000 - 0 0| slot a - - start - 1000 - 0|slot  a - - start - 1000 - 0
13 line 13:Slot a - - start - 1000 - 0|slots a - - start - 1000 - 0|slot  - - start - 1000 - 0
13 line 13:slot abcde - - start - 1000 - 0|slot # - - start - 1000 - 0|slot a: - - start - 1000 - 0
13 line 13:slot \u{e9} - - start - 1000 - 0|slot a  - start - 1000 - 0|slot a x - start - 1000 - 0
13 line 13:slot a 07 - start - 1000 - 0|slot a -7 - start - 1000 - 0|slot a 4294967296 - start - 1000 - 0
13 line 13:slot a -  start - 1000 - 0|slot a - x start - 1000 - 0|slot a - Once start - 1000 - 0
13 line 13:slot a - none start - 1000 - 0|slot a - -  - 1000 - 0|slot a - - Start - 1000 - 0|slot a - - due - 1000 - 0
13 line 13:slot a - - none - 1000 - 0|slot a - - start  1000 - 0|slot a - - start start 1000 - 0
13 line 13:slot a - - start Due 1000 - 0|slot a - - start due:5 1000 - 0|slot a - - start term 1000 - 0
13 line 13:slot a - - start term: 1000 - 0|slot a - - start term:- 1000 - 0|slot a - - start term:05 1000 - 0
13 line 13:slot a - - start kill 1000 - 0|slot a - - start kill:18446744073709551616 1000 - 0
13 line 13:slot a - - start kill:5:5 1000 - 0|slot a - - start look:5 1000 - 0|slot a - - start :5 1000 - 0
13 line 13:slot a - - start -  - 0|slot a - - start - - - 0|slot a - - start - 100 - 0|slot a - - start - 10000 - 0
13 line 13:slot a - - start - 2000 - 0|slot a - - start - 1200 - 0|slot a - - start - 1020 - 0
13 line 13:slot a - - start - 1002 - 0|slot a - - start - 1000  0|slot a - - start - 1000 x 0
13 line 13:slot a - - start - 1000 00 0|slot a - - start - 1000 -1 0|slot a - - start - 1000 18446744073709551616 0
13 line 13:slot a - - start - 1000 - x|slot a - - start - 1000 - 00|slot a - - start - 1000 - --
13 line 13:slot a - - start - 1000 - ,|slot a - - start - 1000 - 0,|slot a - - start - 1000 - ,0
13 line 13:slot a - - start - 1000 - 0,,0|slot a - - start - 1000 - 0,-|slot a - - start - 1000 - -,0
13 line 13:slot a - - start - 1000 - 0, 0|slot a - - start - 1000 - 0:0|slot a - - start - 1000 - 0,01
13 line 13:slot a - - start - 1000 - 18446744073709551616|slot a - - start - 1000 - 0,0,0,0,0,0,0,0,0,0,0
14 line 14:slot b - - start - 1000 - 0,
# The end.
# A line of a record too few, and one too many.
12 line 14:
13 line 14:
14 line 16:slot b - - start - 1000 - -/slot c - - - - 0000 - -
14 line 15:slot b - - start - 1000 - -/
15 line 15:end 13|end 15|end 0|end 014|end 14 |end  14|end 14 14|end -|end |end 18446744073709551630|end 14/end 14
15 line 15:end 14/end 15
15 cut:|end|End 14| end 14|ends 14|end\t14|end 14/|end 14/slot c - - - - 0000 - -
# What is read, and whether an init comes to it.
3 unfit:clock 18446744073709551615
4 unfit:stage none 0|stage sysinit 0|stage boot 3600|stage S 5|stage 0 5|stage 9 5
5 unfit:goal S 0|goal 9 3600
6 taken:flags 00|flags 01|flags 11
7 taken:wish 10 - 000 000|wish 00 S:0 111 000|wish 10 0:3600 000 111
9 taken:id:S:initdefault:|id:-:initdefault:
10 taken:a:-:ondemand:x|a:3:respawn: x:y |a:3:respawn:y
10 unfit:a::sysinit:x|a:3:off:
12 unfit:slot x# - - - - 0000 - -
13 unfit:slot ~!\"$ - - - - 0000 - -|slot a 0 sysinit look due 0001 0 -
13 unfit:slot a 4294967295 kbrequest term term:0 0010 18446744073709551615 0
13 unfit:slot a - - kill kill:18446744073709551615 0100 - 1,0
13 unfit:slot a - - start - 1111 - 0,1,2,3,4,5,6,7,8,18446744073709551615|slot id - - start - 1000 - 0
3 taken:clock 7
14 unfit:slot b 5 - start - 1000 - -";

/// Most rows are about the last status.
const OF_STARTED: &str = "\
1 line 12:initd-state 1
13 line 13:slot a - - start - 1000 - 0|slot a - - start - 1000 - 0 |slot a - - start - 1000 - 0  -
13 line 13:slot a - - start - 1000 - 0 - |slot a - - start - 1000 - 0 - -|slot a - - start - 1000 - 0 --
13 line 13:slot a - - start - 1000 - 0 none|slot a - - start - 1000 - 0 exit|slot a - - start - 1000 - 0 exit:
13 line 13:slot a - - start - 1000 - 0 exit:-|slot a - - start - 1000 - 0 exit:00|slot a - - start - 1000 - 0 exit:256
13 line 13:slot a - - start - 1000 - 0 exit 0|slot a - - start - 1000 - 0 exit:0:0|slot a - - start - 1000 - 0 Exit:0
13 line 13:slot a - - start - 1000 - 0 kill|slot a - - start - 1000 - 0 killed:9|slot abcdefghi - - start - 1000 - 0 -
13 taken:slot a - - start - 1000 - 0 -|slot a - - start - 1000 - 0 exit:255|slot a - - start - 1000 - 0 killed
13 unfit:slot abcdefgh - - start - 1000 - 0 -
10 unfit:abcdefgh:3:respawn:x
10 line 10:abcdefghi:3:respawn:x";

const OF_ENDED: &str = "\
1 line 12:initd-state 1
12-15 line 12:slot id - - - - 0000 - -/slot a - - start - 1000 - 0,0/slot b 700 once - - 1000 - -/end 14";

const SETTLED_OLD: &str = "clock 7\nstage 3 5\ngoal 3 5\nflags 11\nwish 00 - 000 000\n\
    table 2\nw:3:wait:a\nr:3:respawn:b\nslot w - - - - 1000 - -\nslot r 700 respawn - - 1000 - 7\nend 12\n";

const OF_SETTLED_OLD: &str = "\
1 taken:initd-state 1
# Records in another order, of one entry alone, two of one id, and one of no entry without child.
11-12 unfit:slot r 700 respawn - - 1000 - 7/slot w - - - - 1000 - -
12-13 unfit:end 11|slot r - - - - 1000 - 7/slot r 700 respawn - due 0000 - -/end 13
12-13 unfit:slot r 700 respawn - - 1000 - 7/slot x - - - - 0000 - -/end 13
# A child of an id that left the table is to be stopped.
12-13 taken:slot r 700 respawn - - 1000 - 7/slot x 701 once - due 0000 - -/end 13
12-13 unfit:slot r 700 respawn - - 1000 - 7/slot x 701 once - - 0000 - -/end 13
# A child has a number and an action; a look is that of a child; a start waits for the one before it.
12 unfit:slot r 700 - - - 1000 - 7
11 unfit:slot w - - look - 1000 - -
12 taken:slot r - - start - 1000 - 7
11-12 unfit:slot w - - start - 1000 - -/slot r - - start - 1000 - 7
# Times that fall, and a later one than now.
12 taken:slot r 700 respawn - - 1000 - 6,7
12 unfit:slot r 700 respawn - - 1000 - 7,6|slot r 700 respawn - - 1000 - 8
# A goal that isn't the level, Boot before it was entered, and a wish for the level in force.
5 unfit:goal 4 5
4-6 unfit:stage boot 5/goal 3 5/flags 00
7 unfit:wish 10 3:5 000 000
7 taken:wish 10 4:5 000 000";

const CALLED: &str = "clock 7\nstage 3 5\ngoal 3 5\nflags 11\nwish 00 - 000 000\n\
    table 1\nd:A:ondemand:x\nslot d 700 ondemand - - 1100 - 7\nend 10\n";

const OF_CALLED: &str = "\
10 taken:slot d 700 ondemand - - 1100 - 7
# It was started by an init that counted no starts of it, and ended the call with the start.
10 taken:slot d 700 ondemand - - 1000 - -
# The respawn limit holds for it: ten starts and a hold of five minutes.
10 taken:slot d - - - - 1100 307 0,1,2,3,4,5,6,7,7,7
10 unfit:slot d - - - - 1100 308 0,1,2,3,4,5,6,7,7,7|slot d - - - - 1100 307 0,1,2|slot d - - - - 1100 - 8";

/// The first check that fails determines the answer; the check of the generation follows the checks of the lines.
const OF_OPENING: &str = "\
1-9 cut:|/|end /|initd-state 1|initd-state 9/generation 1|initd-state 1/generation 1
1-9 version:end 0|end |initd-state 9/end 1|initd-state 1\r/end 1|initd-state 1\0/end 1
2-9 line 2:end 1
2-9 line 3:generation 2/end 2|generation 2/clock \u{ff}/end 3|generation 2/clock/stage/end/end x
2-9 line 8:generation 2/clock 0/stage 3 5/goal 3 5/flags 10/wish 00 - 000 000/end 7
2-9 line 9:generation 2/clock 0/stage 3 5/goal 3 5/flags 10/wish 00 - 000 000/table 1/end 8
2-9 line 10:generation 2/clock 0/stage 3 5/goal 3 5/flags 10/wish 00 - 000 000/table 2/a:3:once:x/end 9
2-9 line 9:generation 2/clock 0/stage 3 5/goal 3 5/flags 10/wish 00 - 000 000/table 0/end 9
2-9 generation:generation 2/clock 0/stage 3 5/goal 3 5/flags 10/wish 00 - 000 000/table 0/end 8";

/// The version and the lines of a text of generation 1, and its rows.
const CHANGES: &[(u64, &str, &str)] = &[
    (1, STARTED_OLD, OF_STARTED_OLD),
    (2, STARTED, OF_STARTED),
    (2, ENDED, OF_ENDED),
    (1, SETTLED_OLD, OF_SETTLED_OLD),
    (1, CALLED, OF_CALLED),
    (1, OPENING, OF_OPENING),
];

/// Returns the text with these lines in place of those between two positions.
fn replaced(global: Global, whole: &str, places: (usize, usize), lines: &str) -> Option<String> {
    let mut text = String::new(global);
    for (at, line) in whole.lines().enumerate() {
        if at + 1 == places.0 && !lines.is_empty() {
            writeln!(text, "{}", lines.replace(global, "/", "\n").ok()?).ok()?;
        }
        if at + 1 < places.0 || places.1 < at + 1 {
            writeln!(text, "{line}").ok()?;
        }
    }
    Some(text)
}

/// Returns the answer for a word; none if the text is taken over.
fn answer_of(word: &str) -> Option<StateFault> {
    match word {
        "cut" => Some(Cut),
        "version" => Some(Version),
        "generation" => Some(Generation),
        "unfit" => Some(Unfit),
        _ => Some(Line(word.strip_prefix("line ")?.parse::<u64>().ok()?)),
    }
}

/// Returns the first lines of a row that give a text another answer than the row; empty if there are none.
fn lines_difference(global: Global, whole: &str, row: &str) -> Option<String> {
    if row.starts_with('#') {
        return Some(String::new(global));
    }
    let (head, items) = row.split_once(':')?;
    let (places, word) = head.split_once(' ')?;
    let (first, last) = places.split_once('-').unwrap_or((places, places));
    let places = (first.parse::<usize>().ok()?, last.parse::<usize>().ok()?);
    for lines in items.split('|') {
        let text = replaced(global, whole, places, lines)?;
        if !is_answered(global, text.as_bytes(), 1, answer_of(word)) {
            return format!(in global; "the answer to this is not {word}: {lines}").ok();
        }
    }
    Some(String::new(global))
}

#[test]
fn lines_are_replaced(rt: HostRuntime) -> Result<(), Fail> {
    for (version, lines, rows) in CHANGES {
        let whole = text_of(rt.alloc(), *version, 1, lines)?;
        for (position, row) in rows.lines().enumerate() {
            let told = lines_difference(rt.alloc(), &whole, row);
            let told = row_difference(rt.alloc(), position, row, told)?;
            assert!(rt; told.is_empty(), "of version {version}, {told}");
        }
    }
    Ok(())
}

/// A text, the requested generation, the answer, and the generation in its second line.
const TEXTS: &[(&str, u64, Option<StateFault>, Option<u64>)] = &[
    ("", 0, Some(Cut), None),
    ("", 1, Some(Cut), None),
    ("\n", 1, Some(Cut), None),
    ("end 0", 1, Some(Cut), None),
    ("initd-state 9\nend 1", 1, Some(Cut), None),
    (
        "initd-state 9\ngeneration 0\nend x\n",
        2,
        Some(Version),
        None,
    ),
    ("\ngeneration 7\n", 7, Some(Cut), Some(7)),
    (
        "initd-state 9\ngeneration 18446744073709551615\nx",
        1,
        Some(Cut),
        Some(u64::MAX),
    ),
    ("initd-state 1\ngeneration 7", 7, Some(Cut), None),
    ("initd-state 1\ngeneration 0\n", 0, Some(Cut), None),
    ("initd-state 1\ngeneration 07\n", 7, Some(Cut), None),
    ("initd-state 1\nclock 7\ngeneration 7\n", 7, Some(Cut), None),
    ("generation 7\n", 7, Some(Cut), None),
];

/// A version and lines, the generation that is requested of a text of generation 1, and the answer.
const ASKED: &[(u64, &str, u64, Option<StateFault>)] = &[
    (1, STARTED_OLD, 1, None),
    (1, STARTED_OLD, 2, Some(Generation)),
    (1, STARTED_OLD, 0, Some(Generation)),
    (2, STARTED, 1, None),
    (2, OPENING, 1, None),
    (2, SETTLED, 2, Some(Generation)),
];

/// Returns a text of a version, with this number of entries and none of their records.
fn large(global: Global, version: u64, entries: u64) -> Result<String, Fail> {
    let mut text = text_of(global, version, 1, "")?;
    let (fields, _) = OPENING.split_once("table").ok_or("no table")?;
    writeln!(text, "{fields}table {entries}")?;
    for number in 0..entries {
        writeln!(text, "{number}:3:once:x")?;
    }
    writeln!(text, "end {}", entries.saturating_add(8))?;
    Ok(text)
}

/// A version and a number of entries: the first number that is too great is rejected. No init can reach a table whose
/// entries have no record.
const LARGEST: &[(u64, u64, Option<StateFault>)] = &[
    (1, 512, Some(Unfit)),
    (1, 513, Some(Line(521))),
    (2, 513, Some(Unfit)),
    (2, 4_096, Some(Unfit)),
    (2, 4_097, Some(Line(4_105))),
];

#[test]
fn whole_texts(rt: HostRuntime) -> Result<(), Fail> {
    for (text, generation, want, named) in TEXTS {
        let is_answered = is_answered(rt.alloc(), text.as_bytes(), *generation, *want);
        assert!(rt;
            is_answered && generation_of(text.as_bytes()) == *named,
            "{text}"
        );
    }
    for (version, lines, generation, want) in ASKED {
        let text = text_of(rt.alloc(), *version, 1, lines)?;
        assert!(rt;
            is_answered(rt.alloc(), text.as_bytes(), *generation, *want),
            "{generation}: {text}"
        );
    }
    for (version, entries, want) in LARGEST {
        let text = large(rt.alloc(), *version, *entries)?;
        assert!(rt;
            is_answered(rt.alloc(), text.as_bytes(), 1, *want),
            "{version}: {entries}"
        );
    }
    Ok(())
}

//! Tests of the verdict on a text that comes in pieces, and of texts that end within a happening.

use crate::verdicts::found_of;

/// A text as long as the longest line of a trace, and one that is a byte longer.
const LONGEST: &str =
    "reaped abcdefgh 4294967295 exit 255 reaped abcdefgh 4294967295 exit 255 reaped abcdefgh 4294967295 exit 255 reaped abcdefgh 4294967295 exit 255 reaped abcdefgh 4";

const TOO_LONG: &str =
    "reaped abcdefgh 4294967295 exit 255 reaped abcdefgh 4294967295 exit 255 reaped abcdefgh 4294967295 exit 255 reaped abcdefgh 4294967295 exit 255 reaped abcdefgh 42";

/// Texts, the result for each, and the line at which its last happening is incomplete, or 0 if it is complete.
const TEXTS: &[(&str, &str, u64)] = &[
    ("", ".", 0),
    ("nudge\n", ".", 0),
    ("nudge", ".", 1),
    ("nudge\nnud", ".", 2),
    // No line of a trace is this long.
    ("nudge\ngarbage", ".", 2),
    ("settle 3\ngarbage", "0:5 line 1: settle 3\n", 2),
    (LONGEST, ".", 1),
    (TOO_LONG, "?1", 0),
    ("reaped a 12 exit 256", ".", 1),
    ("reaped a 12 exit 256\n", "?1", 0),
    ("use 4097", ".", 1),
    ("\n", "?1", 0),
    ("nudge\nno line\nnudge\n", "?2", 0),
    // All lines of a table are required.
    ("nudge\nuse 2\n", ".", 2),
    ("use 2\na:3:once:x\n", ".", 1),
    ("use 2\na:3:once:x\nb:1:once:y", ".", 1),
    ("use 4096\na:3:once:x\n", ".", 1),
    ("use 0\nuse 0\nsettle", ".", 3),
    ("use 3\na:3:once:x\nb", ".", 1),
    ("use 2\na:3:bogus:x\n", ".", 1),
    ("settle 3\nuse 9\nnudge\nuse 9", "0:5 line 1: settle 3\n", 2),
    // No table has this many entries, or two with one id, or these lines.
    ("use 4097\n", "?1", 0),
    ("use 2\na:3:once:x\na:1:once:y\n", "?1", 0),
    ("nudge\nuse 1\nnudge\nnudge\n", "?2", 0),
    // The first breach, with its line in the text.
    ("settle 3\n", "0:5 line 1: settle 3\n", 0),
    (
        "use 2\na:3:once:x\nb:1:once:y\nenter 3 5\nask a start\nbirth a 10\ntold a\nenter 1 5\nask b start\nbirth b 11\n",
        "7:4 line 10: birth b 11\n",
        0,
    ),
    // The happenings after the first breach are read but not judged.
    ("nudge\nsettle 3\nbirth a 1\n", "1:5 line 2: settle 3\n", 0),
    (
        "settle 3\nuse 1\na:3:once:x\nnudge\nnud",
        "0:5 line 1: settle 3\n",
        5,
    ),
    ("settle 3\nno line\n", "?2", 0),
    ("settle 3\nuse 1\na:3:once:x\nnudge \n", "?4", 0),
];

/// The sizes of the pieces.
const SIZES: [usize; 7] = [1, 2, 3, 4, 7, 20, 1000];

#[test]
fn a_text_is_judged_however_it_is_cut(rt: HostRuntime) {
    for (text, finding, open_line) in TEXTS {
        for size in SIZES {
            let got = found_of(rt.alloc(), text, size);
            let is_so = match &got {
                Some((found, at)) => found.as_str() == *finding && *at == *open_line,
                None => false,
            };
            assert!(rt;
                is_so,
                "pieces of {size} of {text:?}: {got:?}, not {finding:?}, {open_line}"
            );
        }
    }
}

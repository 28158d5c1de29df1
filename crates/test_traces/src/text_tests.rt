use crate::verdicts::is_printed;
use std::alloc::Global;
use trace_events::Happening;
use trace_text::{ReadFault, print_one, print_table};

/// Texts of traces, and texts that are not traces, with the number of the line at which no happening begins.
const TEXTS: &[(&str, u64)] = &[
    ("", 0),
    (
        "birth r 0\nbirth r 4294967295\nnobirth r\ndeath 7\nstill r\nnolook r\nhit r\nmiss r\ntold r\n",
        0,
    ),
    (
        "reaped r 7 exit 0\nreaped r 7 exit 255\nreaped r 7 killed\nnudge\nnotread\n",
        0,
    ),
    ("clock 0\nclock 18446744073709551615\n", 0),
    (
        "enter sysinit 0\nenter boot 5\nenter S 3600\nenter 9 1\nsettle S\nsettle 0\ncall A\ncall C\n",
        0,
    ),
    (
        "ask abcd start\nask r look\nask r term\nask r kill\nhold r\npower fail\npower failnow\npower ok\n",
        0,
    ),
    (
        "got level 3 3600\ngot call B\ngot reload\ngot reexec\ngot power ok\ngot nothing 1\ngot nothing 4\n",
        0,
    ),
    (
        "handed whole\nhanded cut 20\nhanded older 18446744073709551615\nhanded none\n",
        0,
    ),
    ("use 0\nuse 2\na:3:once:x\nb:1:respawn:y\nnudge\n", 0),
    ("use 2\nr:0123456789:respawn:getty\nk:S:off:\n", 0),
    // No newline at the end, and an empty line.
    ("nudge", 1),
    ("nudge\nnudge\nnudge", 3),
    ("use 2\na:3:once:x\nb:1:once:y", 1),
    ("\n", 1),
    ("nudge\n\nnudge\n", 2),
    // Blanks, tabs and bytes that are in no line.
    ("nudge \n", 1),
    (" nudge\n", 1),
    ("told  r\n", 1),
    ("told\tr\n", 1),
    ("birth r  7\n", 1),
    ("nudge\r\n", 1),
    ("told r\0\n", 1),
    // Numbers with a sign or a leading zero, and out of range.
    ("death 07\n", 1),
    ("death +7\n", 1),
    ("birth r 4294967296\n", 1),
    ("reaped r 7 exit 256\n", 1),
    ("clock 18446744073709551616\n", 1),
    ("enter S 3601\n", 1),
    ("got level 3 3601\n", 1),
    ("got nothing 0\n", 1),
    ("got nothing 5\n", 1),
    // Unknown words, too few or too many.
    ("death\n", 1),
    ("told\n", 1),
    ("told ninebytes\n", 1),
    ("told r r\n", 1),
    ("told #a\n", 1),
    ("enter s 5\n", 1),
    ("settle sysinit\n", 1),
    ("call a\n", 1),
    ("call D\n", 1),
    ("ask r stop\n", 1),
    ("power fine\n", 1),
    ("reaped r 7 exit\n", 1),
    ("reaped r 7 killed 9\n", 1),
    ("reaped r 7 exit 0 0\n", 1),
    ("handed cut\n", 1),
    ("Nudge\n", 1),
    ("nudge\nbye\n", 2),
    // Tables with a line too few, an entry that is not in its written form, or too many entries.
    ("use\n", 1),
    ("use 2\na:3:once:x\n", 1),
    ("nudge\nuse 2\na:3:once:x\na:3:once:y\n", 2),
    ("use 1\na:33:once:x\nnudge\n", 1),
    ("use 1\na:s:once:x\n", 1),
    ("use 1\na:3:ONCE:x\n", 1),
    ("use 1\n#\n", 1),
    ("use 4097\n", 1),
    ("use 1\na:3:once:x\nb:3:once:y\n", 3),
];

/// Returns the number of the line at which the text is not a trace, or 0 if it is a trace. A trace must print as
/// the same text, as a whole and happening by happening.
fn fault_in(global: Global, text: &str) -> Option<u64> {
    let trace = match trace_text::read(global, text.as_bytes()) {
        Ok(trace) => trace,
        Err(ReadFault::Line(number)) => return Some(number),
        Err(ReadFault::Memory) => return None,
    };
    let mut printed = Vec::new(global);
    for happening in trace.as_slice() {
        let lines = match happening {
            Happening::NewTable(table) => print_table(global, table),
            _ => print_one(global, happening),
        };
        printed.extend_from_slice(lines.ok()?.as_slice()).ok()?;
    }
    let is_so = is_printed(global, &trace, text).ok()? && printed.as_slice() == text.as_bytes();
    is_so.then_some(0)
}

#[test]
fn traces_are_read_and_printed(rt: HostRuntime) {
    for (text, fault) in TEXTS {
        let got = fault_in(rt.alloc(), text);
        assert!(rt; got == Some(*fault), "{text:?}: line {got:?}, not {fault}");
    }
}

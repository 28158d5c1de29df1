//! Hosts of the operating system, which are on the heap of the tests whichever allocator they use, and the calls to
//! them as text.
//!
//! A step is a call, and after ` = ` its answer if that is not the usual one. The answer `fails` or `lacks` (memory)
//! counts as a fault, and no other answer does. All orders are for one id.

use host_calls::{Host, HostFault, Reply};
use host_lines::{ChildMessage, HostLine, MessageSink, TellingRuntime};
use host_system::{HostOptions, OsHost, OsSystem, Pace};
use init_words::{Answer, Id, Memory, Part, SignalKind, Stage};
use inittab_text::PartFault;
use std::alloc::Allocator;
use std::{fs, io};
use test_support::boxed;
use trace_events::{Happening, HappeningIn};

/// The paths of an inittab, a channel of requests and a text of init's state, and the folder of the inittab.
pub(crate) type Paths = (
    &'static str,
    &'static str,
    &'static str,
    Option<&'static str>,
);

/// A host of the system on which the tests run.
pub(crate) type SystemHost<A> = OsHost<
    TellingRuntime<HostRuntime, Brief>,
    OsSystem<HostRuntime>,
    A,
>;

/// The text of each announcement, which is about as long as a real one.
const SAID: &[u8] = b"what init says of a happening\n";

/// A reporter that writes only a word for the kind of a message, and its subject; the tests of the programs check the
/// real wording. It announces stages, all with the same text.
#[derive(Clone, Copy)]
pub(crate) struct Brief(HostRuntime);

impl MessageSink for Brief {
    fn tell(&self, line: &HostLine<'_>) {
        let rt = &self.0;
        let _ = match *line {
            HostLine::Fails { what, .. } => eprintln!(rt; "fails {what}"),
            HostLine::WorksAgain { what, .. } => eprintln!(rt; "again {what}"),
            HostLine::Old { length, fresh, .. } => {
                eprintln!(rt; "old {length}{}", if fresh { " fresh" } else { "" })
            }
            HostLine::PassedOver { number, .. } => eprintln!(rt; "passed {number}"),
            HostLine::Torn { over, .. } => eprintln!(rt; "torn {over}"),
            HostLine::Whole { .. } => eprintln!(rt; "whole"),
            HostLine::Uncounted => eprintln!(rt; "uncounted"),
            HostLine::OfChild {
                id,
                message: ChildMessage::Started { .. },
                ..
            } => eprintln!(rt; "started {}", id.as_str()),
            _ => Ok(()),
        };
    }

    fn announce<A: Allocator, B: Allocator>(
        &self,
        alloc: A,
        happening: &HappeningIn<B>,
    ) -> io::Result<usize> {
        if !matches!(happening, Happening::Enter(_, _)) {
            return Ok(0);
        }
        let text = Vec::from_slice(alloc, SAID)?;
        self.0.write_all(&text)?;
        Ok(text.len())
    }

    fn print_faults<A: Allocator + Copy, B: Allocator>(
        &self,
        _alloc: A,
        _parts: &[Part<B>],
        _faults: &[PartFault],
    ) -> io::Result<usize> {
        Ok(0)
    }
}

/// Creates a host with these paths. The kind says whether it skips the existing contents of its channel, reports on its
/// children, has logs, or pauses by the cost of a turn; by default it does none of these.
pub(crate) fn host_of<A: Allocator + Copy>(
    rt: &HostRuntime,
    alloc: A,
    paths: Paths,
    kind: &str,
) -> Result<Box<SystemHost<A>>, Memory> {
    let (inittab, channel, state, folder) = paths;
    let pace = match kind {
        "" | "fresh" | "verbose" | "logs" => Pace::Second,
        _ => Pace::UpTo {
            hundredths: 1,
            by_cost: true,
        },
    };
    let logs = if kind == "logs" {
        Some("a folder of a long enough name")
    } else {
        None
    };
    let options = HostOptions {
        inittab,
        folder,
        channel,
        state,
        logs,
        pace,
        fresh: kind == "fresh",
        verbose: kind == "verbose",
        ..HostOptions::none()
    };
    let telling = TellingRuntime::new(*rt, Brief(*rt));
    Ok(boxed(rt.alloc(), OsHost::new(telling, *rt, alloc, &options)?)?)
}

fn word_of(reply: Reply) -> &'static str {
    match reply {
        Reply::Now(Answer::Born(_)) => "birth",
        Reply::Now(Answer::NotBorn) => "nobirth",
        Reply::Now(Answer::Ended(_)) => "end",
        Reply::Now(Answer::Alive) => "still",
        Reply::Now(Answer::NoLook) => "nolook",
        Reply::Now(Answer::Hit) => "hit",
        Reply::Now(Answer::Miss) => "miss",
        Reply::Later => "later",
    }
}

fn right(is_right: bool) -> &'static str {
    if is_right { "yes" } else { "no" }
}

/// A text of an inittab, or of init's state.
pub(crate) const TEXT: &str = "id:3:initdefault:\nr:3:respawn:/bin/serv with its words\n";

/// Reports whether the files have these names, and the first has the text.
fn are_files<A: Allocator>(rt: &HostRuntime, parts: &[Part<A>], names: &str) -> bool {
    let mut names = names.split(' ');
    for part in parts {
        if names.next() != Some(part.name.as_str()) {
            return false;
        }
    }
    match (names.next(), parts) {
        (None, [global, ..]) => match fs::read_to_string(rt, global.name.as_str()) {
            Ok(text) => global.bytes.as_slice() == text.as_bytes(),
            Err(_) => false,
        },
        _ => false,
    }
}

/// Reports whether a call that reads returns the expected result.
fn is_read<A: Allocator + Copy, B: Allocator + Copy>(
    rt: &HostRuntime,
    alloc: A,
    host: &mut SystemHost<B>,
    word: &str,
    what: &str,
) -> Result<bool, HostFault> {
    match word {
        "tables" => host
            .read_tables(alloc)
            .map(|parts| are_files(rt, &parts, what)),
        "carry" => host
            .carry(alloc, TEXT.as_bytes())
            .map(|text| text.as_slice() == TEXT.as_bytes()),
        "clock" => host.clock().map(|_| true),
        _ => host
            .take_bytes(&mut [0; 1000])
            .map(|count| what.parse::<usize>().ok() == Some(count)),
    }
}

fn reads<A: Allocator + Copy, B: Allocator + Copy>(
    rt: &HostRuntime,
    alloc: A,
    host: &mut SystemHost<B>,
    word: &str,
    what: &str,
) -> &'static str {
    let before = host.faults();
    let given = is_read(rt, alloc, host, word, what);
    match (given, host.faults() > before) {
        (Ok(is_read), false) => right(is_read),
        (Err(HostFault::Device), true) => "fails",
        (Err(HostFault::Memory), true) => "lacks",
        _ => "no",
    }
}

const ZEROS: &[u8] = &[0; 800];

/// An inittab that needs more than one read.
const LONG: &[u8] = &[b'#'; 20_000];

/// Changes a file.
fn change(rt: &HostRuntime, word: &str, what: &str) -> Option<()> {
    match word {
        "zeros" => fs::write(rt, "k.ctl", ZEROS.get(..what.parse::<usize>().ok()?)?).ok(),
        "long" => fs::write(rt, what, LONG).ok(),
        "folder" => fs::create_dir(rt, what).ok(),
        "no-folder" => fs::remove_dir(rt, what).ok(),
        _ => fs::remove_file(rt, what).ok(),
    }
}

/// Reports whether the child of the id ends within some time.
fn is_ended<B: Allocator + Copy>(host: &mut SystemHost<B>, id: Id) -> bool {
    for _ in 0..10_000usize {
        if host.look(id) != Reply::Now(Answer::Alive) {
            return true;
        }
        host.pause();
    }
    false
}

/// Announces a stage, and something that is not announced.
fn announce<B: Allocator + Copy>(host: &mut SystemHost<B>) -> &'static str {
    let boot: Happening = Happening::Enter(Stage::Boot, 5);
    let unsaid: Happening = Happening::Nudge;
    host.announce(&boot);
    host.announce(&unsaid);
    "yes"
}

/// Returns the answer of a call that allocates its result with this allocator.
pub(crate) fn said<A: Allocator + Copy, B: Allocator + Copy>(
    rt: &HostRuntime,
    alloc: A,
    host: &mut SystemHost<B>,
    call: &str,
) -> &'static str {
    let Some(id) = Id::read(b"m") else {
        return "no id";
    };
    let (word, what) = call.split_once(' ').unwrap_or((call, ""));
    match word {
        "start" => word_of(host.start(alloc, id, what.as_bytes())),
        "unread" => word_of(host.start(alloc, id, b"echo \xff")),
        "look" => word_of(host.look(id)),
        "term" => word_of(host.signal(id, SignalKind::Term)),
        "kill" => word_of(host.signal(id, SignalKind::Kill)),
        "there" => right(host.look(id) != Reply::Now(Answer::NoLook)),
        "ended" => right(is_ended(host, id)),
        "late" => right(host.late().is_none()),
        "announce" => announce(host),
        "faults" => right(what.parse::<u64>().ok() == Some(host.faults())),
        "pause" => {
            host.pause();
            "yes"
        }
        "tables" | "carry" | "clock" | "take" => reads(rt, alloc, host, word, what),
        _ => right(change(rt, word, what).is_some()),
    }
}

/// Reports whether all steps have the expected answers.
pub(crate) fn all_go<A: Allocator + Copy, B: Allocator + Copy>(
    rt: &HostRuntime,
    alloc: A,
    host: &mut SystemHost<B>,
    steps: &str,
) -> bool {
    for step in steps.split(" / ") {
        let (call, want) = step.split_once(" = ").unwrap_or((step, "yes"));
        if !step.is_empty() && said(rt, alloc, host, call) != want {
            return false;
        }
    }
    true
}

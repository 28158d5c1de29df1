//! Makes allocations fail one after another, on heaps of increasing size: each failed call reports lack of memory, and
//! has written a prefix of the lines. With enough room, each call returns the right result.

use crate::rclinks_lines::NET;
use crate::script_order::rc_over;
use crate::script_runs::PLAIN;
use crate::texts::{END, NINE, SHOWN_NINE, header_of, joined, scripts_of, shown};
use init_words::{Level, Memory};
use linked_list_allocator::LocalHeap;
use lsb_header::HeaderFault;
use program_io::{KeptTexts, Reports, Texts};
use rc_driver::{Arg, LevelChange, RcStep, RunEnd, ScriptOptions, run_links};
use rc_links::{Folder, FolderEntry, LinkChange, Plan, PlanFault, Script};
use std::alloc::{Allocator, Global};
use std::io::ErrorKind;
use test_support::Outcome::{self, Done, Refused, Unmade};
use test_support::{boxed, host_of, line_words, refusals};

fn read_header(global: Global, heap: &LocalHeap) -> Option<Outcome> {
    let text = joined(global, &[NINE, END]).ok()?;
    match header_of(global, heap, &text) {
        Ok(header) => (shown(global, &header).ok()?.as_slice() == SHOWN_NINE).then_some(Done),
        Err(fault) => (fault == HeaderFault::Memory).then_some(Refused),
    }
}

const LINKS: &[u8] =
    b"rc0.d/K01web ../init.d/web\nrc3.d/S01net ../init.d/net\nrc3.d/S02web ../init.d/web\n";

fn plan_of<A: Allocator + Copy>(
    global: Global,
    alloc: A,
    scripts: &[Script<A>],
) -> Result<Box<Plan<A>>, PlanFault<A>> {
    let plan = rc_links::plan(alloc, scripts)?;
    match boxed(global, plan) {
        Ok(plan) => Ok(plan),
        Err(_) => Err(PlanFault::Memory),
    }
}

/// Plans scripts, and also prints the plan if `is_printed` is set.
fn plan(global: Global, heap: &LocalHeap, is_printed: bool) -> Option<Outcome> {
    let Some(scripts) = scripts_of(heap) else {
        return Some(Unmade);
    };
    match plan_of(global, heap, &scripts) {
        Ok(_plan) if !is_printed => Some(Done),
        Ok(plan) => match plan.print(heap) {
            Ok(text) => (text.as_slice() == LINKS).then_some(Done),
            Err(Memory) => Some(Refused),
        },
        Err(PlanFault::Memory) if is_printed => Some(Unmade),
        Err(why) => matches!(why, PlanFault::Memory).then_some(Refused),
    }
}

/// Inserts the facility `$all` before the scripts. They are unchanged if there is no room for it.
fn add_all(heap: &LocalHeap) -> Option<Outcome> {
    let Some(mut scripts) = scripts_of(heap) else {
        return Some(Unmade);
    };
    let is_added = rc_links::add_all(heap, &mut scripts).is_ok();
    let first = if is_added { "$all" } else { "web" };
    let count = if is_added { 3 } else { 2 };
    let is_right = scripts.len() == count && scripts.first()?.name() == first;
    is_right.then_some(Outcome::of(is_added))
}

/// Returns one entry, or `None` if there is no room for it.
fn entries_of<A: Allocator + Copy>(alloc: A, name: &[u8]) -> Option<Vec<FolderEntry<A>, A>> {
    let mut entries = Vec::new(alloc);
    let name = Vec::from_slice(alloc, name).ok()?;
    let leads = Vec::from_slice(alloc, b"../init.d/net").ok()?;
    entries.push(FolderEntry::new(name, leads)).ok()?;
    Some(entries)
}

/// Returns the changes of a folder that needs one removal and one creation, or `None` if there is no room for the
/// folder.
fn changes_on<A: Allocator + Copy>(alloc: A) -> Option<Result<Vec<LinkChange<A>, A>, Memory>> {
    let (planned, held) = (entries_of(alloc, b"S01net")?, entries_of(alloc, b"S20net")?);
    let mut folders = Vec::new(alloc);
    folders.push(Folder::new(Level::L3, planned, held)).ok()?;
    let mut targets = Vec::new(alloc);
    targets
        .push(Vec::from_slice(alloc, b"../init.d/net").ok()?)
        .ok()?;
    Some(rc_links::changes(alloc, &targets, &folders))
}

fn change(heap: &LocalHeap) -> Option<Outcome> {
    match changes_on(heap) {
        None => Some(Unmade),
        Some(Err(Memory)) => Some(Refused),
        Some(Ok(changes)) => (changes.len() == 2).then_some(Done),
    }
}

/// Keeps a text at `b` after a text at `a`. If there is no room for the second text, only the first is kept.
fn keep(global: Global, heap: &LocalHeap) -> Option<Outcome> {
    let mut stored = KeptTexts::new(heap);
    if stored.keep("a", NET).is_err() {
        return Some(Unmade);
    }
    let outcome = if stored.keep("b", NET).is_ok() {
        Done
    } else {
        Refused
    };
    let is_first = stored.read(global, "a").ok()?.as_slice() == NET;
    let is_second = match stored.read(global, "b") {
        Ok(text) => outcome == Done && text.as_slice() == NET,
        Err(error) => outcome == Refused && error.kind() == ErrorKind::NotFound,
    };
    (is_first && is_second).then_some(outcome)
}

fn read_kept(global: Global, heap: &LocalHeap) -> Option<Outcome> {
    let mut stored = KeptTexts::new(global);
    stored.keep("a", NET).ok()?;
    match stored.read(heap, "a") {
        Ok(text) => (text.as_slice() == NET).then_some(Done),
        Err(error) => (error.kind() == ErrorKind::OutOfMemory).then_some(Refused),
    }
}

const WAY: ScriptOptions = ScriptOptions {
    levels: Some(LevelChange {
        before: Some(Level::L2),
        new: Level::L3,
    }),
    ..PLAIN
};

const STARTED: &str =
    "start birth 7 / start birth 7 / start birth 7 / look exit 0 / look exit 0 / look exit 0";

const LINES: &[u8] = b"K05c stop exit 0\nS10a start exit 0\nS20b start exit 0\n";

/// Reports whether a heap has room to run scripts that all exit with status 0. If not, a prefix of the lines was
/// written. Returns `None` if anything else happens.
fn is_run(global: Global, heap: &LocalHeap) -> Option<bool> {
    let new = line_words(global, "S10a S20b K05c").ok()?;
    let mut rc = rc_over(global, global, "", &[], &new).ok()?;
    let mut host = host_of(global, global, STARTED)?;
    let (mut out, mut err) = (Vec::<u8>::new(global), Reports::to(Vec::<u8>::new(global)));
    let end = run_links(
        heap,
        &mut rc,
        &mut *host,
        WAY,
        "etc/rc3.d",
        9,
        &mut out,
        &mut err,
    );
    if end == RunEnd::Done {
        return (out.as_slice() == LINES && rc.next() == RcStep::Done).then_some(true);
    }
    (end == RunEnd::Memory && LINES.starts_with(&out)).then_some(false)
}

/// Reports whether there is room on a heap to list the scripts for a change of level.
fn is_listed(global: Global, heap: &LocalHeap, change: &str, previous: &str) -> Option<bool> {
    let previous = line_words(global, previous).ok()?;
    let new = line_words(global, "S10a S20b K05c K70d").ok()?;
    match rc_over(global, heap, change, &previous, &new) {
        Ok(mut rc) => (rc.next() == RcStep::Run("K05c", Arg::Stop)).then_some(true),
        Err(_) => Some(false),
    }
}

fn outcome_on(global: Global, heap: &LocalHeap, what: &str) -> Option<Outcome> {
    match what {
        "header" => read_header(global, heap),
        "plan" => plan(global, heap, false),
        "print" => plan(global, heap, true),
        "all" => add_all(heap),
        "changes" => change(heap),
        "keep" => keep(global, heap),
        "read" => read_kept(global, heap),
        "run" => is_run(global, heap).map(Outcome::of),
        "sysv" => is_listed(global, heap, "23", "S10a K30d").map(Outcome::of),
        _ => is_listed(global, heap, "", "S10a S30d").map(Outcome::of),
    }
}

/// The calls that need memory, and a number of heaps: each call must fail on more heaps than that.
const REFUSED: &[(&str, usize)] = &[
    ("header", 4),
    ("plan", 4),
    ("print", 1),
    ("all", 3),
    ("changes", 3),
    ("keep", 3),
    ("read", 1),
    ("run", 2),
    ("list", 2),
    ("sysv", 2),
];

#[test]
fn what_has_no_room_is_refused(rt: HostRuntime) {
    for (what, least) in REFUSED {
        let refused = refusals(rt.alloc(), |global, heap| outcome_on(global, heap, what));
        assert!(rt; refused > Some(*least), "{what}: {refused:?}");
    }
}

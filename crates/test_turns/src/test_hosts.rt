//! Tests of hosts of the operating system: their answers to calls that no program makes, the faults that they count,
//! and their reports. Also hosts on heaps of increasing size, up to a size with which they carry out a request, and a
//! host that reads texts into such heaps: it reports and counts lack of memory, and leaves the files unchanged.

use crate::os_hosts::{Paths, SystemHost, TEXT, all_go, host_of, said};
use linked_list_allocator::LocalHeap;
use std::alloc::{Allocator, Global};
use std::fs;
use std::process::Abort;
use std::test::Fail;
use test_support::{Again, SYSTEM, is_again, is_said};

/// The paths of a host, its kind, and the steps of its life.
type Life = (Paths, &'static str, &'static str);

fn lives(rt: &HostRuntime, (paths, kind, steps): Life) -> bool {
    match host_of(rt, rt.alloc(), paths, kind) {
        Ok(mut host) => all_go(rt, rt.alloc(), &mut host, steps),
        Err(_) => false,
    }
}

const PATHS: Paths = ("a.tab", "a.ctl", "a.state", None);

const LIVES: &[Life] = &[
    // There is no child; there are processes that are in no inittab, without a word and not in UTF-8; and there is a
    // child next to another one. A pause is not a fault.
    (
        PATHS,
        "paced",
        "look = nolook / term = miss / kill = miss / late / faults 3 / \
         start = nobirth / start  \t = nobirth / unread = nobirth / faults 6 / \
         start sleep 60 = birth / start true = nobirth / look = still / kill = hit / faults 7 / pause / faults 7",
    ),
    // Files that fail are faults.
    (
        ("f.tab", ".", "f.none/state", None),
        "",
        "tables = fails / take = fails / carry = fails / faults 3 / \
         long f.tab / tables f.tab / clock / faults 3 / remove f.tab",
    ),
];

#[test]
fn a_host_answers_and_counts(rt: HostRuntime) {
    for (position, life) in LIVES.iter().enumerate() {
        assert!(rt; lives(&rt, *life), "life {position}");
    }
}

const TOLD: Paths = ("k.tab", "k.ctl", "k.state", None);

const TOLD_LIVES: &[Life] = &[
    // A first reading that fails is not a fault.
    (
        TOLD,
        "",
        "folder k.ctl / take = fails / take = fails / no-folder k.ctl / zeros 384 / take 384 / remove k.ctl",
    ),
    (
        TOLD,
        "fresh",
        "folder k.ctl / take = fails / no-folder k.ctl / zeros 384 / take 0 / remove k.ctl",
    ),
    // A writer in the middle of a block is not reported; a partial block that remains is.
    (
        TOLD,
        "",
        "take 0 / zeros 400 / take 384 / zeros 768 / take 384 / take 0 / zeros 778 / take 0 / zeros 788 / take 0 / \
         take 0 / pause / pause / pause / pause / take 0 / take 0 / zeros 768 / take 0",
    ),
    (TOLD, "", "announce / announce / faults 2"),
];

const SAID: &str = "\
fails k.ctl
old 384
passed 1
again k.ctl
true
fails k.ctl
old 384 fresh
again k.ctl
true
passed 1
passed 2
torn 20
whole
true
fails standard output
true
";

const SHORT: &str = "uncounted\nstarted m\n";

/// Tests that with one of the heap sizes there is memory to start a child but not to count it: the host reports this,
/// and that it started the child.
fn run_short(rt: &HostRuntime) -> Result<(), Fail> {
    for step in 4..640usize {
        let heap = LocalHeap::new(rt.alloc(), 16 * step)?;
        if let Ok(mut host) = host_of(rt, &heap, TOLD, "verbose") {
            for _ in 0..2u32 {
                all_go(rt, rt.alloc(), &mut host, "start true = birth / ended");
            }
        }
        if fs::read_to_string(rt, "k.err")?.as_str().contains(SHORT) {
            fs::write(rt, "k.told", "told\n")?;
            return Ok(());
        }
    }
    Ok(())
}

const AGAIN: &Again = &Again {
    test: "test_hosts::lives_are_told",
    path: SYSTEM,
    out: "/dev/full",
    err: "k.err",
    said: &[("k.err", SAID), ("k.told", "told\n")],
};

#[test]
fn lives_are_told(rt: HostRuntime) -> Result<(), Fail> {
    if is_again(&rt) {
        for life in TOLD_LIVES {
            let is_lived = lives(&rt, *life);
            eprintln!(rt; "{is_lived}")?;
        }
        return run_short(&rt);
    }
    let is_right = is_said(&rt, rt.alloc(), AGAIN)?;
    if !is_right {
        let told = fs::read_to_string(&rt, "k.err")?;
        assert!(rt; is_right, "{told}");
    }
    Ok(())
}

/// A test of a request: the kind of the host, or `ample` for a host in ample memory that reads into a heap; its steps,
/// of which the last is the request and needs the others; the answers, including later steps, if the request succeeds,
/// and if it fails; and a number of heap sizes: more of them than that must be too small.
type Asked = (
    &'static str,
    &'static str,
    &'static str,
    &'static str,
    usize,
);

const ASKED: &[Asked] = &[
    (
        "",
        "start true",
        "birth / faults 0 / there",
        "nobirth / faults 1 / look = nolook",
        8,
    ),
    // If there is room for a host but not for its logs, creating one with logs fails.
    ("logs", "faults 0", "yes", "", 2),
    // If TERM fails the child stays alive.
    (
        "",
        "start sleep 1000 = birth / term",
        "hit / faults 0",
        "miss / faults 1 / look = still / kill = hit / ended",
        8,
    ),
    ("", "announce / faults 0", "yes", "no / faults 1", 2),
    ("ample", "tables g.tab 10-a.tab 20-b.tab", "yes", "lacks", 1),
    ("ample", "carry", "yes", "lacks", 1),
];

/// The outcome for a host on a heap.
#[derive(Clone, Copy)]
enum Made {
    Nothing,
    /// The host exists, but the request fails.
    Host,
    All,
}

fn made_of<A: Allocator + Copy>(
    rt: &HostRuntime,
    heap: &LocalHeap,
    host: &mut SystemHost<A>,
    asked: &Asked,
) -> Option<Made> {
    let (_, steps, done, refused, _) = *asked;
    let (before, call) = steps.rsplit_once(" / ").unwrap_or(("", steps));
    if !all_go(rt, heap, host, before) {
        return Some(Made::Nothing);
    }
    let answer = said(rt, heap, host, call);
    match done.strip_prefix(answer) {
        Some(rest) => all_go(rt, heap, host, rest).then_some(Made::All),
        None => all_go(rt, heap, host, refused.strip_prefix(answer)?).then_some(Made::Host),
    }
}

const ROOM_PATHS: Paths = ("r.tab", "r.ctl", "r.state", None);

fn made_in(
    rt: &HostRuntime,
    ample: &mut SystemHost<Global>,
    room: usize,
    asked: &Asked,
) -> Option<Made> {
    let heap = LocalHeap::new(rt.alloc(), room).ok()?;
    if asked.0 == "ample" {
        return made_of(rt, &heap, ample, asked);
    }
    match host_of(rt, &heap, ROOM_PATHS, asked.0) {
        Ok(mut host) => made_of(rt, &heap, &mut host, asked),
        Err(_) if host_of(rt, &heap, ROOM_PATHS, "").is_ok() => Some(Made::Host),
        Err(_) => Some(Made::Nothing),
    }
}

/// Tests sizes in steps of 16 bytes, which is less than the smallest allocation: first no host can be created, then a
/// host whose request fails, and finally, after more steps than the given number, a host whose request succeeds.
fn comes_of_room(rt: &HostRuntime, ample: &mut SystemHost<Global>, asked: &Asked) -> Option<bool> {
    let (first, most) = if asked.0 == "ample" {
        (0, 8192usize)
    } else {
        (2, 1024)
    };
    let mut is_host = false;
    for step in 0..most {
        match made_in(rt, ample, step.saturating_mul(16), asked)? {
            Made::Nothing if !is_host => {}
            Made::Host if step >= first => is_host = true,
            Made::All => return Some(is_host && step > asked.4),
            _ => return None,
        }
    }
    None
}

#[test]
fn a_host_and_what_it_does_need_room(rt: HostRuntime) -> Result<(), Fail> {
    fs::write(&rt, "g.tab", TEXT)?;
    fs::create_dir(&rt, "g.d")?;
    fs::write(&rt, "g.d/10-a.tab", "a:3:once:x\n")?;
    fs::write(&rt, "g.d/20-b.tab", "")?;
    let mut ample = host_of(
        &rt,
        rt.alloc(),
        ("g.tab", "g.ctl", "g.state", Some("g.d")),
        "",
    )?;
    for asked in ASKED {
        assert!(rt;
            comes_of_room(&rt, &mut ample, asked) == Some(true),
            "{}",
            asked.1
        );
    }
    Ok(())
}

//! The scripts that `Rc` yields for the names in two folders.

use init_words::{Level, Memory, Status};
use rc_driver::{Arg, LevelChange, NotAsked, Rc, RcAnswer, RcStep};
use std::alloc::{Allocator, Global};
use test_support::{boxed, line_words};

/// Returns the scripts to run at a change of level, by the rules of the LSB or of sysv-rc.
pub(crate) fn rc_over<'n, A: Allocator + Copy>(
    global: Global,
    alloc: A,
    change: &str,
    previous: &[String],
    new: &'n [String],
) -> Result<Box<Rc<'n, A>>, Memory> {
    match change_of(change) {
        None => Ok(boxed(global, Rc::new(alloc, previous, new)?)?),
        Some(passage) => Ok(boxed(global, Rc::as_sysv(alloc, passage, previous, new)?)?),
    }
}

/// Returns the change of level in a text such as `23`, or `N3` from no level.
pub(crate) fn change_of(change: &str) -> Option<LevelChange> {
    let [before, new] = change.as_bytes() else {
        return None;
    };
    Some(LevelChange {
        before: Level::read(*before),
        new: Level::read(*new)?,
    })
}

/// Reports whether this script comes next, and only once, and is answered once, after it has begun.
fn is_handed_out(rc: &mut Rc, run: &str) -> bool {
    let (link, arg) = match run.strip_prefix('-') {
        Some(link) => (link, Arg::Stop),
        None => (run.trim_start_matches('+'), Arg::Start),
    };
    let is_next = rc.answer(RcAnswer::NotStarted) == Err(NotAsked)
        && rc.next() == RcStep::Run(link, arg)
        && rc.next() == RcStep::Waiting
        && rc.next() == RcStep::Waiting;
    is_next
        && rc.answer(RcAnswer::Ended(Status::Exit(3))) == Ok(())
        && rc.answer(RcAnswer::NotStarted) == Err(NotAsked)
}

/// Returns the first of these scripts that does not come in order, or a note that another script follows them.
fn stray_script<'r>(rc: &mut Rc, runs: &'r str) -> Option<&'r str> {
    for run in runs.split_ascii_whitespace() {
        if !is_handed_out(rc, run) {
            return Some(run);
        }
    }
    let is_over = rc.next() == RcStep::Done && rc.answer(RcAnswer::NotStarted) == Err(NotAsked);
    if is_over { None } else { Some("the end") }
}

/// Returns the difference between the scripts to run and a row; empty if there is none.
pub(crate) fn difference_of(alloc: Global, row: &[&str]) -> Option<String> {
    let [change, previous, new, runs] = *row else {
        return None;
    };
    let previous = line_words(alloc, previous.trim_ascii_end()).ok()?;
    let new = line_words(alloc, new.trim_ascii_end()).ok()?;
    let mut rc = rc_over(alloc, alloc, change.trim_ascii_end(), &previous, &new).ok()?;
    match stray_script(&mut rc, runs) {
        None => Some(String::new(alloc)),
        Some(run) => format!(in alloc; "not in its turn: {run}").ok(),
    }
}

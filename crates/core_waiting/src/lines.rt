//! The messages about what init waits for.

ghost use Rattle.std.specs.Prelude.{◌≡◌, ◌++◌, ◌-◌, IfOk, OnOk};
ghost use Rattle.core_waiting.specs.Awaiting.{awaited_by};
ghost use Rattle.core_waiting.specs.Lines.{answer_line, answers_text, end_line, ended_words, ends_text, level_words, line_start, seconds_words, stage_words, stop_in, stop_words, termed_words, waiting_text, why_words};

use crate::awaited::AwaitedChildren;
use crate::rests::{Awaited, WhyAwaited};
use child_table::{Slot, Stop};
use init_words::{ChildNumber, Id, Level, Stage};
use itoa::Buffer;
use level_core::Core;
use std::alloc::{AllocError, Allocator, Global};

/// Returns one line for each thing that init waits for: first the answers to its orders, then the children that
/// `AwaitedChildren` yields, each with the reason, both in record order. The text is empty if a runlevel is announced
/// settled.
pub fn waiting_lines<A: Allocator>(alloc: Global, core: &Core<A>) -> Result<Vec<u8>, AllocError>
    ensures { IfOk result (λ text. text.items ≡ waiting_text core.now) }
{
    let mut text = Vec::new(alloc);
    if !core.fields().announced {
        add_answers(&mut text, core.stage(), core.slots().as_slice())?;
        add_ends(&mut text, core)?;
    }
    Ok(text)
}

/// Appends a line for each record with an open order.
fn add_answers(text: &mut Vec<u8>, stage: Option<Stage>, slots: &[Slot]) -> Result<(), AllocError>
    ensures { OnOk result (text.new.items ≡ text.old.items ++ answers_text stage slots.now) }
{
    let mut rest = slots;
    while let Some((slot, others)) = rest.split_first() {
        add_answer(text, stage, slot)?;
        rest = others;
    }
    Ok(())
}

fn add_answer(text: &mut Vec<u8>, stage: Option<Stage>, slot: &Slot) -> Result<(), AllocError>
    ensures { OnOk result (text.new.items ≡ text.old.items ++ answer_line stage slot.now) }
{
    if slot.order().is_some() {
        add_start(text, stage)?;
        text.extend_from_slice(b"an answer about ")?;
        text.extend_from_slice(slot.id().as_bytes())?;
        text.push(b'\n')?;
    }
    Ok(())
}

/// Appends a line for each child that init waits for.
fn add_ends<A: Allocator>(text: &mut Vec<u8>, core: &Core<A>) -> Result<(), AllocError>
    ensures { OnOk result (text.new.items
        ≡ text.old.items ++ ends_text core.now (awaited_by core.now)) }
{
    for awaited in AwaitedChildren::of(core) {
        add_end(text, core, &awaited)?;
    }
    Ok(())
}

fn add_end<A: Allocator>(
    text: &mut Vec<u8>,
    core: &Core<A>,
    awaited: &Awaited,
) -> Result<(), AllocError>
    ensures { OnOk result (text.new.items ≡ text.old.items ++ end_line core.now awaited.now) }
{
    add_start(text, core.stage())?;
    text.extend_from_slice(awaited.id.as_bytes())?;
    text.extend_from_slice(b": ")?;
    add_why(text, core, awaited)?;
    text.push(b'\n')?;
    Ok(())
}

/// Appends the reason why init waits for a child.
fn add_why<A: Allocator>(
    text: &mut Vec<u8>,
    core: &Core<A>,
    awaited: &Awaited,
) -> Result<(), AllocError>
    ensures { OnOk result (text.new.items ≡ text.old.items ++ why_words core.now awaited.now) }
{
    match awaited.why {
        WhyAwaited::Excluded => {
            let stop = stop_of(core, &awaited.id);
            add_stop(text, core.fields().grace, core.time(), stop)
        }
        WhyAwaited::WaitedFor => add_ended(text, b"init waits until it exits", awaited.number),
        WhyAwaited::InTheWay => add_ended(
            text,
            b"its earlier child must exit first",
            awaited.number,
        ),
    }
}

/// Appends a text and the number of the child in parentheses.
fn add_ended(text: &mut Vec<u8>, what: &[u8], number: ChildNumber) -> Result<(), AllocError>
    ensures { OnOk result (text.new.items ≡ text.old.items ++ ended_words what.now number) }
{
    let mut digits = Buffer::new();
    text.extend_from_slice(what)?;
    text.extend_from_slice(b" (")?;
    text.extend_from_slice(digits.format(number.0).as_bytes())?;
    text.push(b')')?;
    Ok(())
}

/// Appends the progress of stopping a child, given the seconds between the two signals and the current time.
fn add_stop(text: &mut Vec<u8>, grace: u16, now: u64, stop: Option<Stop>) -> Result<(), AllocError>
    ensures { OnOk result (text.new.items ≡ text.old.items ++ stop_words grace now stop) }
{
    match stop {
        Some(Stop::Termed(time)) => add_termed(text, grace, now, time),
        Some(Stop::Killed(_)) => put(text, b"it is being stopped; KILL was sent"),
        Some(Stop::Due) => put(
            text,
            b"it must be stopped, but no signal has reached it yet",
        ),
        None => put(
            text,
            b"it must be stopped, but no signal has reached it yet",
        ),
    }
}

fn add_termed(text: &mut Vec<u8>, grace: u16, now: u64, time: u64) -> Result<(), AllocError>
    ensures { OnOk result (text.new.items ≡ text.old.items ++ termed_words grace now time) }
{
    let left = seconds_left(grace, now, time);
    add_seconds(
        text,
        b"it is being stopped; TERM was sent, KILL follows in ",
        left,
    )
}

/// Appends a text and a number of seconds.
fn add_seconds(text: &mut Vec<u8>, what: &[u8], seconds: u64) -> Result<(), AllocError>
    ensures { OnOk result (text.new.items ≡ text.old.items ++ seconds_words what.now seconds) }
{
    let mut digits = Buffer::new();
    text.extend_from_slice(what)?;
    text.extend_from_slice(digits.format(seconds).as_bytes())?;
    text.extend_from_slice(b" s")?;
    Ok(())
}

/// Returns how many seconds of the grace period are left, given the time when it began.
fn seconds_left(grace: u16, now: u64, time: u64) -> u64
    ensures { result ≡ grace - (now - time) }
{
    u64::from(grace).saturating_sub(now.saturating_sub(time))
}

fn put(text: &mut Vec<u8>, bytes: &[u8]) -> Result<(), AllocError>
    ensures { OnOk result (text.new.items ≡ text.old.items ++ bytes.now) }
{
    text.extend_from_slice(bytes)?;
    Ok(())
}

/// Returns the progress of stopping the id's child.
fn stop_of<A: Allocator>(core: &Core<A>, id: &Id) -> Option<Stop>
    ensures { result ≡ stop_in id.now core.now.slots }
{
    core.slots().by_id(id)?.stop()
}

/// Appends the beginning of a line, which names the level or stage that is waiting.
fn add_start(text: &mut Vec<u8>, stage: Option<Stage>) -> Result<(), AllocError>
    ensures { OnOk result (text.new.items ≡ text.old.items ++ line_start stage) }
{
    text.extend_from_slice(b"initd: ")?;
    add_stage(text, stage)?;
    text.extend_from_slice(b" is waiting for ")?;
    Ok(())
}

fn add_stage(text: &mut Vec<u8>, stage: Option<Stage>) -> Result<(), AllocError>
    ensures { OnOk result (text.new.items ≡ text.old.items ++ stage_words stage) }
{
    match stage {
        None => put(text, b"startup"),
        Some(Stage::Sysinit) => put(text, b"sysinit"),
        Some(Stage::Boot) => put(text, b"boot"),
        Some(Stage::Run(level)) => add_level(text, level),
    }
}

fn add_level(text: &mut Vec<u8>, level: Level) -> Result<(), AllocError>
    ensures { OnOk result (text.new.items ≡ text.old.items ++ level_words level) }
{
    text.extend_from_slice(b"level ")?;
    text.push(level.code())?;
    Ok(())
}

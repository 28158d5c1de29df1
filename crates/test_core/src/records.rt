//! Records as the subject of a run. The calls are those of a core and those that a core makes: `ask`, `hold`, `called`
//! with an id, `enter` with a stage, and `judge` by the table and a level. Each order and each answer is given at the
//! maximum of the clock, until a `clock` line sets the time.

use crate::runs::{Subject, steps_difference, steps_of, table_of};
use child_table::{Slot, Slots, Stop};
use init_words::{ChildNumber, Id, Memory, OrderKind, Refusal, Stage, Status};
use inittab_text::Table;
use respawn_limit::CLOCK_LIMIT;
use std::alloc::{AllocError, Allocator, Global};
use test_support::{answer_of, boxed, happening_of};
use trace_events::{Happening, HappeningIn};
use trace_text::words::read_level;

/// Records within a run, with the last table.
#[derive(Drop)]
pub(crate) struct RecordsRun<A: Allocator> {
    slots: Slots<A>,
    table: Table<A>,
    time: u64,
}

pub(crate) fn records_over<A: Allocator + Copy>(
    global: Global,
    alloc: A,
    table: Table<A>,
) -> Result<Box<RecordsRun<A>>, Memory> {
    let slots = Slots::new(alloc, &table)?;
    let run = RecordsRun {
        slots,
        table,
        time: CLOCK_LIMIT,
    };
    Ok(boxed(global, run)?)
}

fn order_words(order: OrderKind) -> &'static str {
    match order {
        OrderKind::Start => "start open",
        OrderKind::Look => "look open",
        OrderKind::Term => "term open",
        OrderKind::Kill => "kill open",
    }
}

fn stop_words(stop: Stop) -> &'static str {
    match stop {
        Stop::Due => "stop due",
        Stop::Termed(_) => "stop by term",
        Stop::Killed(_) => "stop by kill",
    }
}

/// Appends a part of the words of a record.
fn add_part(words: &mut String, part: &str) -> Result<(), AllocError> {
    words.push_str(if words.ends_with(":") { " " } else { ", " })?;
    words.push_str(part)
}

/// Appends those of the parts that are true.
fn add_flags(words: &mut String, slot: &Slot) -> Result<(), AllocError> {
    let flags = [
        (slot.asked(), "asked"),
        (slot.called(), "called"),
        (slot.look(), "to look at"),
        (slot.missed(), "missed"),
        (slot.table_act().is_none(), "no entry"),
    ];
    for (is_set, part) in flags {
        if is_set {
            add_part(words, part)?;
        }
    }
    Ok(())
}

/// Returns the id and the contents of the record as text: `a: child 700, stop due, asked`, or `a: new`.
fn words_of(global: Global, slot: &Slot) -> Result<String, AllocError> {
    let id = slot.id();
    let mut words = format!(in global; "{}:", id.as_str())?;
    if let Some(number) = slot.child() {
        let number = number.0;
        add_part(&mut words, &format!(in global; "child {number}")?)?;
    }
    if let Some(order) = slot.order() {
        add_part(&mut words, order_words(order))?;
    }
    if let Some(stop) = slot.stop() {
        add_part(&mut words, stop_words(stop))?;
    }
    add_flags(&mut words, slot)?;
    if words.ends_with(":") {
        words.push_str(" new")?;
    }
    Ok(words)
}

/// Reports whether the records match the lines, in order; `none` stands for no records.
fn shows<A: Allocator>(global: Global, slots: &Slots<A>, text: &str) -> Option<bool> {
    if slots.as_slice().is_empty() {
        return Some(text == "none");
    }
    let mut remaining = text.lines();
    for slot in slots.as_slice() {
        let words = words_of(global, slot).ok()?;
        if remaining.next() != Some(words.as_str()) {
            return Some(false);
        }
    }
    Some(remaining.next().is_none())
}

/// Reports whether the starts that count are at these times.
fn has_starts(slot: &Slot, times: &str) -> bool {
    let mut remaining = slot.starts().iter();
    for time in times.split(' ') {
        if remaining.next().copied() != time.parse::<u64>().ok() {
            return false;
        }
    }
    remaining.next().is_none()
}

/// Reports whether a record has the value in the reader's line; none if the line is not for a reader.
fn has(slot: &Slot, reader: &str, value: &str) -> Option<bool> {
    match reader {
        "number" => Some(slot.child() == Some(ChildNumber(value.parse::<u32>().ok()?))),
        "starts" => Some(has_starts(slot, value)),
        "held" => Some(slot.held_until() == value.parse::<u64>().ok()),
        "last" => Some(slot.last() == Some(Status::Exit(value.parse::<u8>().ok()?))),
        _ => None,
    }
}

/// Reports whether a reader method returns the value in its line; none if the line is not for a reader.
fn gives<A: Allocator>(global: Global, slots: &Slots<A>, line: &str) -> Option<bool> {
    let (reader, value) = line.split_once(' ').unwrap_or((line, ""));
    match reader {
        "quiet" => Some(slots.quiet()),
        "busy" => Some(!slots.quiet()),
        "due" => Some(slots.has_due()),
        "none" => Some(value == "due" && !slots.has_due()),
        "termed" => Some(slots.first_termed() == value.parse::<u64>().ok()),
        "child" => {
            let (number, id) = value.split_once(' ').unwrap_or((value, ""));
            let number = ChildNumber(number.parse::<u32>().ok()?);
            Some(slots.by_child(number) == Id::read(id.as_bytes()))
        }
        "shows" => shows(global, slots, value),
        _ => {
            let (id, value) = value.split_once(' ')?;
            has(slots.by_id(&Id::read(id.as_bytes())?)?, reader, value)
        }
    }
}

fn asked<A: Allocator>(slots: &mut Slots<A>, id: Id, order: OrderKind) -> Option<()> {
    if slots.len() == 0 || !slots.can_ask(&id, order, CLOCK_LIMIT) {
        return None;
    }
    slots.ask(id, order, CLOCK_LIMIT);
    Some(())
}

/// Returns how the records answer a call; none if the happening is not a call.
fn told<A: Allocator>(
    run: &mut RecordsRun<A>,
    call: &HappeningIn<Global>,
) -> Option<Result<(), Refusal>> {
    match *call {
        Happening::Asked(id, order) => asked(&mut run.slots, id, order)?,
        Happening::Hold(id) => {
            run.slots.by_id(&id)?;
            run.slots.hold(id, CLOCK_LIMIT);
        }
        Happening::Nudge => run.slots.nudge(),
        Happening::Enter(_, _) => run.slots.entered(),
        Happening::Clock(time) => run.time = time.min(CLOCK_LIMIT),
        _ => {
            let (id, answer) = answer_of(call)?;
            return Some(run.slots.told(id, answer, run.time.min(CLOCK_LIMIT)));
        }
    }
    Some(Ok(()))
}

fn adopted<A: Allocator + Copy>(run: &mut RecordsRun<A>, table: Table<A>) -> Result<(), Refusal> {
    run.slots.adopt(&table)?;
    run.table = table;
    Ok(())
}

/// Returns how the records answer the call in a line; none if there is no call in it.
fn answered<A: Allocator + Copy>(
    global: Global,
    alloc: A,
    run: &mut RecordsRun<A>,
    line: &str,
) -> Option<Result<(), Refusal>> {
    let (word, rest) = line.split_once(' ').unwrap_or((line, ""));
    match word {
        "use" => return Some(adopted(run, table_of(alloc, rest)?)),
        "called" => {
            let id = Id::read(rest.as_bytes())?;
            run.slots.by_id(&id)?;
            run.slots.called(id);
        }
        "judge" => {
            let level = read_level(rest.as_bytes())?;
            run.slots.judge(&run.table, Stage::Run(level));
        }
        _ => return told(run, &happening_of(global, line)?),
    }
    Some(Ok(()))
}

impl<A: Allocator + Copy> Subject<A> for RecordsRun<A> {
    fn goes(&mut self, global: Global, alloc: A, line: &str, want: Result<(), Refusal>) -> bool {
        match gives(global, &self.slots, line) {
            Some(is_so) => is_so,
            None => answered(global, alloc, self, line) == Some(want),
        }
    }

    fn rests(&mut self) -> bool {
        true
    }
}

/// Returns the difference between a run on the records of an inittab and its lines; empty if there is none.
pub(crate) fn records_difference(global: Global, inittab: &str, run: &str) -> Option<String> {
    let mut subject = records_over(global, global, table_of(global, inittab)?).ok()?;
    let steps = steps_of(global, run).ok()?;
    steps_difference::<Global, RecordsRun<Global>>(global, global, &mut subject, &steps)
}

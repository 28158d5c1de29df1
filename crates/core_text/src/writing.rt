//! Writes the text of a state.

ghost use Rattle.std.specs.Prelude.{◌≡◌, ◌++◌, ◌∷◌, [], map, length, decimal, IfOk, OnOk};
ghost use Rattle.std.specs.List.{flat_map};
ghost use Rattle.core_text.specs.CommonWords.{word_of, text_of, level_word, order_word, record_of};
ghost use Rattle.core_text.specs.declared.versions.Version.TheVariants.{V2};
ghost use Rattle.core_text.specs.Lines.{bits, spaced, or_dash, goal_word, stop_word, stage_or_none, starts_word, status_word, stage_line, goal_line, flags_line, wish_line, head_lines, table_line, slot_line, slot_flags, power_bits, letter_bits, text_of_lines, state_text};

use child_table::{Slot, Stop};
use core_model::{CoreFields, PlainSlot};
use init_words::{Act, ChildNumber, Memory, OrderKind, Stage, Status};
use inittab_text::Table;
use itoa::Buffer;
use std::alloc::{AllocError, Allocator};
use trace_events::{CallSet, Goal};

// Each of these functions appends to the text. If memory allocation fails, part of the output may have been appended.

fn put<A: Allocator>(text: &mut Vec<u8, A>, bytes: &[u8]) -> Result<(), AllocError>
    ensures { OnOk result (text.new.items ≡ text.old.items ++ bytes.now) }
{
    text.extend_from_slice(bytes)?;
    Ok(())
}

fn put_number<A: Allocator>(text: &mut Vec<u8, A>, number: u64) -> Result<(), AllocError>
    ensures { OnOk result (text.new.items ≡ text.old.items ++ decimal number) }
{
    let mut digits = Buffer::new();
    put(text, digits.format(number).as_bytes())
}

/// Appends a byte and a number.
fn put_marked<A: Allocator>(text: &mut Vec<u8, A>, mark: u8, number: u64) -> Result<(), AllocError>
    ensures { OnOk result (text.new.items ≡ text.old.items ++ mark ∷ decimal number) }
{
    text.push(mark)?;
    put_number(text, number)
}

/// Appends a line with a name, a blank and a number.
fn put_number_line<A: Allocator>(
    text: &mut Vec<u8, A>,
    name: &[u8],
    number: u64,
) -> Result<(), AllocError>
    ensures { OnOk result (text.new.items ≡ text.old.items
        ++ text_of_lines (spaced (name.now ∷ decimal number ∷ []) ∷ [])) }
{
    put(text, name)?;
    put_marked(text, b' ', number)?;
    text.push(b'\n')?;
    Ok(())
}

fn put_bits<A: Allocator>(text: &mut Vec<u8, A>, flags: &[bool]) -> Result<(), AllocError>
    ensures { OnOk result (text.new.items ≡ text.old.items ++ 32 ∷ bits flags.now) }
{
    text.push(b' ')?;
    for flag in flags {
        text.push(if *flag { b'1' } else { b'0' })?;
    }
    Ok(())
}

fn put_level_and_seconds<A: Allocator>(
    text: &mut Vec<u8, A>,
    goal: Goal,
    mark: u8,
) -> Result<(), AllocError>
    ensures { OnOk result (text.new.items ≡ text.old.items
        ++ 32 ∷ level_word goal.level ++ mark ∷ decimal goal.grace) }
{
    text.push(b' ')?;
    text.push(goal.level.code())?;
    put_marked(text, mark, u64::from(goal.grace))
}

fn put_level_wish<A: Allocator>(text: &mut Vec<u8, A>, wish: Option<Goal>) -> Result<(), AllocError>
    ensures { OnOk result (text.new.items ≡ text.old.items ++ 32 ∷ or_dash goal_word wish) }
{
    match wish {
        Some(goal) => put_level_and_seconds(text, goal, b':'),
        None => put(text, b" -"),
    }
}

fn put_stage<A: Allocator>(text: &mut Vec<u8, A>, stage: Option<Stage>) -> Result<(), AllocError>
    ensures { OnOk result (text.new.items ≡ text.old.items ++ 32 ∷ stage_or_none stage) }
{
    match stage {
        None => put(text, b" none"),
        Some(Stage::Sysinit) => put(text, b" sysinit"),
        Some(Stage::Boot) => put(text, b" boot"),
        Some(Stage::Run(level)) => put(text, &[b' ', level.code()]),
    }
}

fn put_time<A: Allocator>(text: &mut Vec<u8, A>, time: Option<u64>) -> Result<(), AllocError>
    ensures { OnOk result (text.new.items ≡ text.old.items ++ 32 ∷ or_dash decimal time) }
{
    match time {
        Some(time) => put_marked(text, b' ', time),
        None => put(text, b" -"),
    }
}

fn put_child<A: Allocator>(
    text: &mut Vec<u8, A>,
    child: Option<ChildNumber>,
) -> Result<(), AllocError>
    ensures { OnOk result (text.new.items ≡ text.old.items ++ 32 ∷ or_dash decimal child) }
{
    match child {
        Some(child) => put_marked(text, b' ', u64::from(child.0)),
        None => put(text, b" -"),
    }
}

fn put_act<A: Allocator>(text: &mut Vec<u8, A>, act: Option<Act>) -> Result<(), AllocError>
    ensures { OnOk result (text.new.items ≡ text.old.items ++ 32 ∷ or_dash word_of act) }
{
    text.push(b' ')?;
    match act {
        Some(act) => put(text, act.word()),
        None => put(text, b"-"),
    }
}

fn put_order<A: Allocator>(
    text: &mut Vec<u8, A>,
    order: Option<OrderKind>,
) -> Result<(), AllocError>
    ensures { OnOk result (text.new.items ≡ text.old.items ++ 32 ∷ or_dash order_word order) }
{
    match order {
        None => put(text, b" -"),
        Some(OrderKind::Start) => put(text, b" start"),
        Some(OrderKind::Look) => put(text, b" look"),
        Some(OrderKind::Term) => put(text, b" term"),
        Some(OrderKind::Kill) => put(text, b" kill"),
    }
}

fn put_stop<A: Allocator>(text: &mut Vec<u8, A>, stop: Option<Stop>) -> Result<(), AllocError>
    ensures { OnOk result (text.new.items ≡ text.old.items ++ 32 ∷ or_dash stop_word stop) }
{
    match stop {
        None => put(text, b" -"),
        Some(Stop::Due) => put(text, b" due"),
        Some(Stop::Termed(time)) => {
            put(text, b" term")?;
            put_marked(text, b':', time)
        }
        Some(Stop::Killed(time)) => {
            put(text, b" kill")?;
            put_marked(text, b':', time)
        }
    }
}

/// Appends times, each preceded by a comma.
fn put_more<A: Allocator>(text: &mut Vec<u8, A>, times: &[u64]) -> Result<(), AllocError>
    ensures { OnOk result (text.new.items ≡ text.old.items
        ++ flat_map (λ time. 44 ∷ decimal time) times.now) }
{
    for time in times {
        put_marked(text, b',', *time)?;
    }
    Ok(())
}

fn put_starts<A: Allocator>(text: &mut Vec<u8, A>, starts: &[u64]) -> Result<(), AllocError>
    ensures { OnOk result (text.new.items ≡ text.old.items ++ 32 ∷ starts_word starts.now) }
{
    let [first, more @ ..] = starts else {
        return put(text, b" -");
    };
    put_marked(text, b' ', *first)?;
    put_more(text, more)?;
    Ok(())
}

fn put_last<A: Allocator>(text: &mut Vec<u8, A>, last: Option<Status>) -> Result<(), AllocError>
    ensures { OnOk result (text.new.items ≡ text.old.items ++ 32 ∷ or_dash status_word last) }
{
    match last {
        None => put(text, b" -"),
        Some(Status::Killed) => put(text, b" killed"),
        Some(Status::Exit(code)) => {
            put(text, b" exit")?;
            put_marked(text, b':', u64::from(code))
        }
    }
}

fn put_places<A: Allocator>(text: &mut Vec<u8, A>, fields: &CoreFields) -> Result<(), AllocError>
    ensures { OnOk result (text.new.items ≡ text.old.items
        ++ text_of_lines (stage_line fields.now.stage fields.now.grace
        ∷ goal_line fields.now.goal ∷ [])) }
{
    put(text, b"stage")?;
    put_stage(text, fields.stage)?;
    put_marked(text, b' ', u64::from(fields.grace))?;
    put(text, b"\ngoal")?;
    put_level_and_seconds(text, fields.goal, b' ')?;
    text.push(b'\n')?;
    Ok(())
}

fn put_flags<A: Allocator>(text: &mut Vec<u8, A>, fields: &CoreFields) -> Result<(), AllocError>
    ensures { OnOk result (text.new.items ≡ text.old.items
        ++ text_of_lines (flags_line fields.now.booted fields.now.announced ∷ [])) }
{
    put(text, b"flags")?;
    put_bits(text, &[fields.booted, fields.announced])?;
    text.push(b'\n')?;
    Ok(())
}

fn put_news<A: Allocator>(text: &mut Vec<u8, A>, pending: CallSet) -> Result<(), AllocError>
    ensures { OnOk result (text.new.items ≡ text.old.items
        ++ 32 ∷ bits (power_bits pending) ++ 32 ∷ bits (letter_bits pending)) }
{
    put_bits(text, &[pending.fail, pending.fail_now, pending.ok])?;
    put_bits(text, &[pending.a, pending.b, pending.c])
}

fn put_wishes<A: Allocator>(text: &mut Vec<u8, A>, fields: &CoreFields) -> Result<(), AllocError>
    ensures { OnOk result (text.new.items ≡ text.old.items ++ text_of_lines (wish_line
        fields.now.reread fields.now.reexec fields.now.level_wish fields.now.pending ∷ [])) }
{
    put(text, b"wish")?;
    put_bits(text, &[fields.reread, fields.reexec])?;
    put_level_wish(text, fields.level_wish)?;
    put_news(text, fields.pending)?;
    text.push(b'\n')?;
    Ok(())
}

fn put_fields<A: Allocator>(text: &mut Vec<u8, A>, fields: &CoreFields) -> Result<(), AllocError>
    ensures { OnOk result (text.new.items ≡ text.old.items
        ++ text_of_lines (head_lines fields.now)) }
{
    put_number_line(text, b"generation", fields.generation)?;
    put_number_line(text, b"clock", fields.time)?;
    put_places(text, fields)?;
    put_flags(text, fields)?;
    put_wishes(text, fields)?;
    Ok(())
}

fn put_table<A: Allocator + Copy, B: Allocator>(
    text: &mut Vec<u8, A>,
    table: &Table<B>,
) -> Result<(), Memory>
    ensures { OnOk result (text.new.items ≡ text.old.items
        ++ (text_of_lines (table_line (length table.now) ∷ []) ++ text_of table.now)) }
{
    put_number_line(text, b"table", table.len() as u64)?;
    let lines = inittab_text::write(*text.allocator(), table)?;
    put(text, &lines)?;
    Ok(())
}

fn put_life<A: Allocator>(text: &mut Vec<u8, A>, slot: &PlainSlot) -> Result<(), AllocError>
    ensures { OnOk result (text.new.items ≡ text.old.items ++ 32 ∷ (or_dash decimal slot.now.child
        ++ 32 ∷ (or_dash word_of slot.now.act ++ 32 ∷ or_dash order_word slot.now.order))) }
{
    put_child(text, slot.child)?;
    put_act(text, slot.act)?;
    put_order(text, slot.order)
}

fn put_ends<A: Allocator>(text: &mut Vec<u8, A>, slot: &PlainSlot) -> Result<(), AllocError>
    ensures { OnOk result (text.new.items ≡ text.old.items
        ++ 32 ∷ (starts_word slot.now.starts.items ++ 32 ∷ or_dash status_word slot.now.last)) }
{
    put_starts(text, slot.starts.as_slice())?;
    put_last(text, slot.last)
}

fn put_limits<A: Allocator>(text: &mut Vec<u8, A>, slot: &PlainSlot) -> Result<(), AllocError>
    ensures { OnOk result (text.new.items ≡ text.old.items ++ 32 ∷ (or_dash stop_word slot.now.stop
        ++ 32 ∷ (bits (slot_flags slot.now) ++ 32 ∷ (or_dash decimal slot.now.held_until
        ++ 32 ∷ (starts_word slot.now.starts.items
        ++ 32 ∷ or_dash status_word slot.now.last))))) }
{
    put_stop(text, slot.stop)?;
    put_bits(text, &[slot.asked, slot.called, slot.look, slot.missed])?;
    put_time(text, slot.held_until)?;
    put_ends(text, slot)
}

fn put_slot<A: Allocator>(text: &mut Vec<u8, A>, slot: &PlainSlot) -> Result<(), AllocError>
    ensures { OnOk result (text.new.items ≡ text.old.items ++ (slot_line V2 slot.now ++ 10 ∷ [])) }
{
    put(text, b"slot ")?;
    put(text, slot.id.as_bytes())?;
    put_life(text, slot)?;
    put_limits(text, slot)?;
    text.push(b'\n')?;
    Ok(())
}

fn put_slots<A: Allocator>(text: &mut Vec<u8, A>, slots: &[Slot]) -> Result<(), AllocError>
    ensures { OnOk result (text.new.items ≡ text.old.items
        ++ text_of_lines (map (slot_line V2) (map record_of slots.now))) }
{
    for slot in slots {
        put_slot(text, &PlainSlot::of(slot))?;
    }
    Ok(())
}

/// Returns the text of init's state: these fields, this table, and these records in record order.
pub fn write_state<A: Allocator + Copy, B: Allocator>(
    alloc: A,
    fields: &CoreFields,
    table: &Table<B>,
    slots: &[Slot],
) -> Result<Vec<u8, A>, Memory>
    ensures { IfOk result (λ text. text.items ≡ state_text (record {
      fields = fields.now;
      table = table.now;
      records = map record_of slots.now;
    })) }
{
    let mut text = Vec::new(alloc);
    put(&mut text, b"initd-state 2\n")?;
    put_fields(&mut text, fields)?;
    put_table(&mut text, table)?;
    put_slots(&mut text, slots)?;
    let count = 8 + table.len() + slots.len();
    put_number_line(&mut text, b"end", count as u64)?;
    Ok(text)
}

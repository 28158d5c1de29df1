//! Prints the text of a trace.

ghost use Rattle.std.specs.Prelude.{◌≡◌, ◌++◌, ◌∷◌, [], map, codes, decimal, IfOk, OnOk};
ghost use Rattle.inittab_text.specs.Written.{text_of};
ghost use Rattle.trace_events.specs.declared.happenings.Happening.TheVariants.{NewTable};
ghost use Rattle.trace_text.specs.Lines.{stage_word, order_word, power_word, cause_number, words_behind, line_of_words, status_words, got_words, handed_words, event_text, trace_text};

use init_words::{Memory, OrderKind, PowerKind, Stage, Status};
use initctl_frame::{Cause, HeardRequest};
use inittab_text::Table;
use itoa::Buffer;
use std::alloc::Allocator;
use trace_events::{Handed, Happening, HappeningIn};

fn order_word(order: OrderKind) -> &'static [u8]
    ensures { result.now ≡ order_word order }
{
    match order {
        OrderKind::Start => b"start",
        OrderKind::Look => b"look",
        OrderKind::Term => b"term",
        OrderKind::Kill => b"kill",
    }
}

fn power_word(kind: PowerKind) -> &'static [u8]
    ensures { result.now ≡ power_word kind }
{
    match kind {
        PowerKind::Fail => b"fail",
        PowerKind::FailNow => b"failnow",
        PowerKind::Ok => b"ok",
    }
}

fn cause_number(why: Cause) -> u8
    ensures { result ≡ cause_number why }
{
    match why {
        Cause::Magic => 1,
        Cause::Unknown => 2,
        Cause::LeftOut => 3,
        Cause::Character => 4,
    }
}

/// Appends the words, each preceded by a blank. If memory allocation fails, some of them may have been appended.
fn put_words<A: Allocator>(text: &mut Vec<u8, A>, words: &[&[u8]]) -> Result<(), Memory>
    ensures { OnOk result (text.new.items ≡ text.old.items
        ++ words_behind (map (λ word. word.now) words.now)) }
{
    for word in words {
        text.push(b' ')?;
        text.extend_from_slice(word)?;
    }
    Ok(())
}

/// Appends a line of these words. If memory allocation fails, a part of the line may have been appended.
fn put_line<A: Allocator>(text: &mut Vec<u8, A>, first: &[u8], rest: &[&[u8]]) -> Result<(), Memory>
    ensures { OnOk result (text.new.items ≡ text.old.items
        ++ line_of_words (first.now ∷ map (λ word. word.now) rest.now)) }
{
    text.extend_from_slice(first)?;
    put_words(text, rest)?;
    text.push(b'\n')?;
    Ok(())
}

/// Appends a line of three words.
fn put_pair<A: Allocator>(
    text: &mut Vec<u8, A>,
    first: &[u8],
    second: &[u8],
    third: &[u8],
) -> Result<(), Memory>
    ensures { OnOk result (text.new.items ≡ text.old.items
        ++ line_of_words (first.now ∷ second.now ∷ third.now ∷ [])) }
{
    put_line(text, first, &[second, third])
}

fn put_status<A: Allocator>(
    text: &mut Vec<u8, A>,
    id: &[u8],
    number: &[u8],
    status: Status,
) -> Result<(), Memory>
    ensures { OnOk result (text.new.items ≡ text.old.items
        ++ line_of_words (codes "reaped" ∷ id.now ∷ number.now ∷ status_words status)) }
{
    match status {
        Status::Exit(code) => {
            let mut digits = Buffer::new();
            let code = digits.format(code).as_bytes();
            put_line(text, b"reaped", &[id, number, b"exit", code])
        }
        Status::Killed => put_line(text, b"reaped", &[id, number, b"killed"]),
    }
}

fn put_enter<A: Allocator>(text: &mut Vec<u8, A>, stage: Stage, grace: u16) -> Result<(), Memory>
    ensures { OnOk result (text.new.items ≡ text.old.items
        ++ line_of_words (codes "enter" ∷ stage_word stage ∷ decimal grace ∷ [])) }
{
    let mut digits = Buffer::new();
    let grace = digits.format(grace).as_bytes();
    match stage {
        Stage::Sysinit => put_line(text, b"enter", &[b"sysinit", grace]),
        Stage::Boot => put_line(text, b"enter", &[b"boot", grace]),
        Stage::Run(level) => put_line(text, b"enter", &[&[level.code()], grace]),
    }
}

fn put_got<A: Allocator>(text: &mut Vec<u8, A>, request: &HeardRequest) -> Result<(), Memory>
    ensures { OnOk result (text.new.items ≡ text.old.items
        ++ line_of_words (codes "got" ∷ got_words request.now)) }
{
    let mut digits = Buffer::new();
    match request {
        HeardRequest::Level(level, grace) => {
            let grace = digits.format(*grace).as_bytes();
            put_line(text, b"got", &[b"level", &[level.code()], grace])
        }
        HeardRequest::Call(letter) => put_line(text, b"got", &[b"call", &[letter.code()]]),
        HeardRequest::Reload => put_line(text, b"got", &[b"reload"]),
        HeardRequest::Reexec => put_line(text, b"got", &[b"reexec"]),
        HeardRequest::Power(kind) => put_line(text, b"got", &[b"power", power_word(*kind)]),
        HeardRequest::Nothing(why) => {
            let number = digits.format(cause_number(*why)).as_bytes();
            put_line(text, b"got", &[b"nothing", number])
        }
    }
}

fn put_handed<A: Allocator>(text: &mut Vec<u8, A>, how: Handed) -> Result<(), Memory>
    ensures { OnOk result (text.new.items ≡ text.old.items
        ++ line_of_words (codes "handed" ∷ handed_words how)) }
{
    let mut digits = Buffer::new();
    match how {
        Handed::Whole => put_line(text, b"handed", &[b"whole"]),
        Handed::Cut(bytes) => {
            let bytes = digits.format(bytes).as_bytes();
            put_line(text, b"handed", &[b"cut", bytes])
        }
        Handed::Older(generation) => {
            let generation = digits.format(generation).as_bytes();
            put_line(text, b"handed", &[b"older", generation])
        }
        Handed::Failed => put_line(text, b"handed", &[b"none"]),
    }
}

fn put_table<A: Allocator + Copy, B: Allocator>(
    text: &mut Vec<u8, A>,
    table: &Table<B>,
) -> Result<(), Memory>
    ensures { OnOk result (text.new.items ≡ text.old.items
        ++ event_text (NewTable table.now)) }
{
    let mut digits = Buffer::new();
    put_line(text, b"use", &[digits.format(table.len()).as_bytes()])?;
    put_entries(text, table)
}

fn put_entries<A: Allocator + Copy, B: Allocator>(
    text: &mut Vec<u8, A>,
    table: &Table<B>,
) -> Result<(), Memory>
    ensures { OnOk result (text.new.items ≡ text.old.items ++ text_of table.now) }
{
    let lines = inittab_text::write(*text.allocator(), table)?;
    text.extend_from_slice(&lines)?;
    Ok(())
}

/// Appends the line of a happening other than a new table.
fn put_happening<A: Allocator + Copy, B: Allocator>(
    text: &mut Vec<u8, A>,
    happening: &HappeningIn<B>,
) -> Result<(), Memory>
    ensures { OnOk result (text.new.items ≡ text.old.items ++ event_text happening.now) }
{
    let mut digits = Buffer::new();
    match happening {
        Happening::NewTable(table) => put_table(text, table),
        Happening::NotRead => put_line(text, b"notread", &[]),
        Happening::Enter(stage, grace) => put_enter(text, *stage, *grace),
        Happening::Call(letter) => put_line(text, b"call", &[&[letter.code()]]),
        Happening::Power(kind) => put_line(text, b"power", &[power_word(*kind)]),
        Happening::Asked(id, order) => { put_pair(text, b"ask", id.as_bytes(), order_word(*order)) }
        Happening::Hold(id) => put_line(text, b"hold", &[id.as_bytes()]),
        Happening::Settle(level) => put_line(text, b"settle", &[&[level.code()]]),
        Happening::Birth(id, child) => {
            let number = digits.format(child.0).as_bytes();
            put_pair(text, b"birth", id.as_bytes(), number)
        }
        Happening::NoBirth(id) => put_line(text, b"nobirth", &[id.as_bytes()]),
        Happening::Death(child) => {
            let number = digits.format(child.0).as_bytes();
            put_line(text, b"death", &[number])
        }
        Happening::Reaped(id, child, status) => {
            let number = digits.format(child.0).as_bytes();
            put_status(text, id.as_bytes(), number, *status)
        }
        Happening::Still(id) => put_line(text, b"still", &[id.as_bytes()]),
        Happening::NoLook(id) => put_line(text, b"nolook", &[id.as_bytes()]),
        Happening::Hit(id) => put_line(text, b"hit", &[id.as_bytes()]),
        Happening::Miss(id) => put_line(text, b"miss", &[id.as_bytes()]),
        Happening::Told(id) => put_line(text, b"told", &[id.as_bytes()]),
        Happening::Clock(reading) => {
            let reading = digits.format(*reading).as_bytes();
            put_line(text, b"clock", &[reading])
        }
        Happening::Nudge => put_line(text, b"nudge", &[]),
        Happening::Got(request) => put_got(text, request),
        Happening::Handed(how) => put_handed(text, *how),
    }
}

/// Returns the text of a new table: `use`, the number of its entries, and their lines.
pub fn print_table<A: Allocator + Copy, B: Allocator>(
    alloc: A,
    table: &Table<B>,
) -> Result<Vec<u8, A>, Memory>
    ensures { IfOk result (λ text. text.items ≡ event_text (NewTable table.now)) }
{
    let mut text = Vec::new(alloc);
    put_table(&mut text, table)?;
    Ok(text)
}

/// Returns the text of one happening: its line, and for a new table also the lines of the table.
pub fn print_one<A: Allocator + Copy, B: Allocator>(
    alloc: A,
    happening: &HappeningIn<B>,
) -> Result<Vec<u8, A>, Memory>
    ensures { IfOk result (λ text. text.items ≡ event_text happening.now) }
{
    let mut text = Vec::new(alloc);
    put_happening(&mut text, happening)?;
    Ok(text)
}

/// Returns the text of a trace, oldest happening first, one line per happening.
pub fn print<A: Allocator + Copy, B: Allocator>(
    alloc: A,
    trace: &[HappeningIn<B>],
) -> Result<Vec<u8, A>, Memory>
    ensures { IfOk result (λ text. text.items ≡ trace_text trace.now) }
{
    let mut text = Vec::new(alloc);
    for happening in trace {
        put_happening(&mut text, happening)?;
    }
    Ok(text)
}

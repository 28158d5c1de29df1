//! Reads the words of a line of a trace.

ghost use Rattle.std.specs.Prelude.{◌≡◌, ◌^◌, ◌+◌, [], ◌∷◌};
ghost use Rattle.init_words.specs.Ids.{same_id};
ghost use Rattle.init_words.specs.declared.limits.TheConstants.{GRACE_LIMIT};
ghost use Rattle.trace_text.specs.Reading.{level_of_word, letter_of_word, stage_of_word, order_of_word, power_of_word, cause_of_word, seconds_of_word, child_of_word, code_of_word, one_read, about_read, request_read, request_pair_read, handed_read, handed_pair_read, two_read, three_read, four_read, five_read, words_read, words_in, entries_brought};

use init_words::{
    ChildNumber, GRACE_LIMIT, Id, Letter, Level, OrderKind, PowerKind, Stage, Status,
};
use initctl_frame::{Cause, HeardRequest};
use inittab_text::ENTRY_LIMIT;
use std::alloc::Allocator;
use text_lines::{cut, read_below, read_number};
use trace_events::{Handed, Happening, HappeningIn};

/// Returns whether the word is `name`.
pub fn is(word: &[u8], name: &[u8]) -> bool
    ensures { result ≡ same_id word.now name.now }
{
    word == name
}

/// Reads a runlevel, which is one character, `0` to `9` or `S` (init(8)).
pub fn read_level(word: &[u8]) -> Option<Level>
    ensures { result ≡ level_of_word word.now }
{
    let [code] = word else {
        return None;
    };
    let level = Level::read(*code)?;
    if level.code() == *code {
        Some(level)
    } else {
        None
    }
}

fn read_letter(word: &[u8]) -> Option<Letter>
    ensures { result ≡ letter_of_word word.now }
{
    let [code] = word else {
        return None;
    };
    let letter = Letter::read(*code)?;
    if letter.code() == *code {
        Some(letter)
    } else {
        None
    }
}

/// Reads a stage: `sysinit`, `boot`, or the character of a runlevel (init(8)).
pub fn read_stage(word: &[u8]) -> Option<Stage>
    ensures { result ≡ stage_of_word word.now }
{
    if is(word, b"sysinit") {
        return Some(Stage::Sysinit);
    }
    if is(word, b"boot") {
        return Some(Stage::Boot);
    }
    Some(Stage::Run(read_level(word)?))
}

/// Reads an order: `start`, `look`, or one of the signals that stop a child, `term` and `kill` (init(8)).
pub fn read_order(word: &[u8]) -> Option<OrderKind>
    ensures { result ≡ order_of_word word.now }
{
    if is(word, b"start") {
        return Some(OrderKind::Start);
    }
    if is(word, b"look") {
        return Some(OrderKind::Look);
    }
    if is(word, b"term") {
        return Some(OrderKind::Term);
    }
    if is(word, b"kill") {
        return Some(OrderKind::Kill);
    }
    None
}

fn read_power(word: &[u8]) -> Option<PowerKind>
    ensures { result ≡ power_of_word word.now }
{
    if is(word, b"fail") {
        return Some(PowerKind::Fail);
    }
    if is(word, b"failnow") {
        return Some(PowerKind::FailNow);
    }
    if is(word, b"ok") {
        return Some(PowerKind::Ok);
    }
    None
}

fn read_cause(word: &[u8]) -> Option<Cause>
    ensures { result ≡ cause_of_word word.now }
{
    if is(word, b"1") {
        return Some(Cause::Magic);
    }
    if is(word, b"2") {
        return Some(Cause::Unknown);
    }
    if is(word, b"3") {
        return Some(Cause::LeftOut);
    }
    if is(word, b"4") {
        return Some(Cause::Character);
    }
    None
}

/// Reads the seconds between the two signals that stop a child (init(8)), 0 to 3600.
pub fn read_seconds(word: &[u8]) -> Option<u16>
    ensures { result ≡ seconds_of_word word.now }
{
    let seconds = read_below(word, u64::from(GRACE_LIMIT) + 1)?;
    Some(seconds as u16)
}

/// Reads the number of a child, which is below 2^32.
pub fn read_child(word: &[u8]) -> Option<ChildNumber>
    ensures { result ≡ child_of_word word.now }
{
    let number = read_below(word, 1 << 32)?;
    Some(ChildNumber(number as u32))
}

/// Reads an exit status, 0 to 255.
pub fn read_code(word: &[u8]) -> Option<Status>
    ensures { result ≡ code_of_word word.now }
{
    let code = read_below(word, 256)?;
    Some(Status::Exit(code as u8))
}

fn read_one<A: Allocator>(word: &[u8]) -> Option<HappeningIn<A>>
    ensures { result ≡ one_read word.now }
{
    if is(word, b"nudge") {
        return Some(Happening::Nudge);
    }
    if is(word, b"notread") {
        return Some(Happening::NotRead);
    }
    None
}

fn read_about<A: Allocator>(word: &[u8], id: Id) -> Option<HappeningIn<A>>
    ensures { result ≡ about_read word.now id }
{
    if is(word, b"told") {
        return Some(Happening::Told(id));
    }
    if is(word, b"still") {
        return Some(Happening::Still(id));
    }
    if is(word, b"hold") {
        return Some(Happening::Hold(id));
    }
    if is(word, b"nobirth") {
        return Some(Happening::NoBirth(id));
    }
    if is(word, b"nolook") {
        return Some(Happening::NoLook(id));
    }
    if is(word, b"hit") {
        return Some(Happening::Hit(id));
    }
    if is(word, b"miss") {
        return Some(Happening::Miss(id));
    }
    None
}

fn read_request(word: &[u8]) -> Option<HeardRequest>
    ensures { result ≡ request_read word.now }
{
    if is(word, b"reload") {
        return Some(HeardRequest::Reload);
    }
    if is(word, b"reexec") {
        return Some(HeardRequest::Reexec);
    }
    None
}

fn read_request_pair(word: &[u8], given: &[u8]) -> Option<HeardRequest>
    ensures { result ≡ request_pair_read word.now given.now }
{
    if is(word, b"call") {
        return Some(HeardRequest::Call(read_letter(given)?));
    }
    if is(word, b"power") {
        return Some(HeardRequest::Power(read_power(given)?));
    }
    if is(word, b"nothing") {
        return Some(HeardRequest::Nothing(read_cause(given)?));
    }
    None
}

fn read_handed(word: &[u8]) -> Option<Handed>
    ensures { result ≡ handed_read word.now }
{
    if is(word, b"whole") {
        return Some(Handed::Whole);
    }
    if is(word, b"none") {
        return Some(Handed::Failed);
    }
    None
}

fn read_handed_pair(word: &[u8], given: &[u8]) -> Option<Handed>
    ensures { result ≡ handed_pair_read word.now given.now }
{
    if is(word, b"cut") {
        return Some(Handed::Cut(read_number(given)?));
    }
    if is(word, b"older") {
        return Some(Handed::Older(read_number(given)?));
    }
    None
}

fn read_two<A: Allocator>(word: &[u8], given: &[u8]) -> Option<HappeningIn<A>>
    ensures { result ≡ two_read word.now given.now }
{
    if is(word, b"clock") {
        return Some(Happening::Clock(read_number(given)?));
    }
    if is(word, b"death") {
        return Some(Happening::Death(read_child(given)?));
    }
    if is(word, b"settle") {
        return Some(Happening::Settle(read_level(given)?));
    }
    if is(word, b"call") {
        return Some(Happening::Call(read_letter(given)?));
    }
    if is(word, b"power") {
        return Some(Happening::Power(read_power(given)?));
    }
    if is(word, b"got") {
        return Some(Happening::Got(read_request(given)?));
    }
    if is(word, b"handed") {
        return Some(Happening::Handed(read_handed(given)?));
    }
    read_about(word, Id::read(given)?)
}

fn read_three<A: Allocator>(word: &[u8], first: &[u8], second: &[u8]) -> Option<HappeningIn<A>>
    ensures { result ≡ three_read word.now first.now second.now }
{
    if is(word, b"ask") {
        return Some(Happening::Asked(Id::read(first)?, read_order(second)?));
    }
    if is(word, b"birth") {
        return Some(Happening::Birth(Id::read(first)?, read_child(second)?));
    }
    if is(word, b"enter") {
        return Some(Happening::Enter(read_stage(first)?, read_seconds(second)?));
    }
    if is(word, b"got") {
        return Some(Happening::Got(read_request_pair(first, second)?));
    }
    if is(word, b"handed") {
        return Some(Happening::Handed(read_handed_pair(first, second)?));
    }
    None
}

fn read_four<A: Allocator>(
    word: &[u8],
    first: &[u8],
    second: &[u8],
    third: &[u8],
) -> Option<HappeningIn<A>>
    ensures { result ≡ four_read word.now first.now second.now third.now }
{
    if is(word, b"reaped") && is(third, b"killed") {
        return Some(Happening::Reaped(Id::read(first)?, read_child(second)?, Status::Killed));
    }
    if is(word, b"got") && is(first, b"level") {
        return Some(Happening::Got(HeardRequest::Level(read_level(second)?, read_seconds(third)?)));
    }
    None
}

fn read_five<A: Allocator>(
    word: &[u8],
    first: &[u8],
    second: &[u8],
    third: &[u8],
    fourth: &[u8],
) -> Option<HappeningIn<A>>
    ensures { result ≡ five_read word.now first.now second.now third.now fourth.now }
{
    if is(word, b"reaped") && is(third, b"exit") {
        return Some(Happening::Reaped(Id::read(first)?, read_child(second)?, read_code(fourth)?));
    }
    None
}

/// Reads the happening of a line, given its first word and the rest of the line.
fn read_behind_one<A: Allocator>(word: &[u8], rest: &[u8]) -> Option<HappeningIn<A>>
    ensures { result ≡ words_read (word.now ∷ words_in rest.now) }
{
    match cut(b' ', rest) {
        Some((first, rest)) => read_behind_two(word, first, rest),
        None => read_two(word, rest),
    }
}

fn read_behind_two<A: Allocator>(word: &[u8], first: &[u8], rest: &[u8]) -> Option<HappeningIn<A>>
    ensures { result ≡ words_read (word.now ∷ first.now ∷ words_in rest.now) }
{
    match cut(b' ', rest) {
        Some((second, rest)) => read_behind_three(word, first, second, rest),
        None => read_three(word, first, rest),
    }
}

fn read_behind_three<A: Allocator>(
    word: &[u8],
    first: &[u8],
    second: &[u8],
    rest: &[u8],
) -> Option<HappeningIn<A>>
    ensures { result ≡ words_read (word.now ∷ first.now ∷ second.now ∷ words_in rest.now) }
{
    match cut(b' ', rest) {
        Some((third, rest)) => read_behind_four(word, first, second, third, rest),
        None => read_four(word, first, second, rest),
    }
}

fn read_behind_four<A: Allocator>(
    word: &[u8],
    first: &[u8],
    second: &[u8],
    third: &[u8],
    rest: &[u8],
) -> Option<HappeningIn<A>>
    ensures { result
        ≡ words_read (word.now ∷ first.now ∷ second.now ∷ third.now ∷ words_in rest.now) }
{
    match cut(b' ', rest) {
        Some(_) => None,
        None => read_five(word, first, second, third, rest),
    }
}

/// Reads the happening of a line without its newline. Returns `None` if it is not a line of a trace, or is a `use`
/// line.
pub(crate) fn read_line<A: Allocator>(line: &[u8]) -> Option<HappeningIn<A>>
    ensures { result ≡ words_read (words_in line.now) }
{
    match cut(b' ', line) {
        Some((word, rest)) => read_behind_one(word, rest),
        None => read_one(line),
    }
}

fn count_of(word: &[u8], count: &[u8]) -> Option<usize>
    ensures { result ≡ entries_brought (word.now ∷ count.now ∷ []) }
{
    if !is(word, b"use") {
        return None;
    }
    let count = read_below(count, ENTRY_LIMIT as u64 + 1)?;
    Some(count as usize)
}

fn read_count(word: &[u8], rest: &[u8]) -> Option<usize>
    ensures { result ≡ entries_brought (word.now ∷ words_in rest.now) }
{
    match cut(b' ', rest) {
        Some(_) => None,
        None => count_of(word, rest),
    }
}

/// Returns the number of entries that a `use` line announces, or `None` for any other line.
pub fn read_use(line: &[u8]) -> Option<usize>
    ensures { result ≡ entries_brought (words_in line.now) }
{
    match cut(b' ', line) {
        Some((word, rest)) => read_count(word, rest),
        None => None,
    }
}

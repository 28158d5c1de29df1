//! Reads a state text.

ghost use Rattle.std.specs.List.{list_all};
ghost use Rattle.std.specs.Prelude.{ℕ, ◌≡◌, ◌≢◌, ◌∷◌, List, true, false, None, Some, Err, IfOk, IfErr, IfSome, IfNone, OnOk, ◌++◌, []};
ghost use Rattle.std.specs.Option.{option_map};
ghost use Rattle.std.specs.Result.{MatchResult};
ghost use Rattle.core_text.specs.CommonWords.{cut, Entry, SavedState};
ghost use Rattle.core_text.specs.Versions.{holds_id, holds_table};
ghost use Rattle.core_text.specs.Reading.{end_split, UnreadState, times_read, places_read, flags_read, fields_made, fields_read, table_read, table_in, version_read, generation_of, line_read, after_prefix, slot_line_read, end_line_read, checked_by, OnLine};
ghost use Rattle.core_text.specs.Refused.{AreRecords, NoRecords, IsBody, IsCut, IsOtherVersion, RefusedBody, IsTextOf, Refused};

use crate::fields::{
    WishFields, after_prefix, read_end_line, read_generation_line, read_slot_line, read_stage_pair,
    read_wishes,
};
use crate::state_fault::StateFault;
use crate::versions::Version;
use crate::words::{read_generation, read_goal, read_two_bits, read_version};
use core_model::{CoreFields, Parts, PlainSlot};
use init_words::{Entry, Memory, Stage};
use inittab_text::{Table, table_begun};
use std::alloc::{AllocError, Allocator};
use text_lines::{after_lines, cut, newlines, read_number};
use trace_events::{CallSet, Goal};

/// Splits a text into the part before its last line, and that line without its newline. Returns `None` if the text does
/// not end with a newline or the line does not begin with `end `.
fn split_end(text: &[u8]) -> Option<(&[u8], &[u8])>
    ensures { option_map (λ parts. (parts.0.now, parts.1.now)) result ≡ end_split text.now }
{
    let rest = after_lines(newlines(text).saturating_sub(1), text)?;
    let (last, more) = cut(b'\n', rest)?;
    if !more.is_empty() || !last.starts_with(b"end ") {
        return None;
    }
    Some((&text[..text.len() - rest.len()], last))
}

/// Returns the first line of a text and the text after it. `number` is the number of that line.
fn take_line(text: &[u8], number: u64) -> Result<(&[u8], &[u8]), StateFault>
    ensures ok { IfOk result (λ parts. cut 10 text.now ≡ Some (parts.0.now, parts.1.now)) }
    ensures err { IfErr result (λ why. UnreadState (cut 10 text.now) why) }
{
    match cut(b'\n', text) {
        Some(parts) => Ok(parts),
        None => Err(StateFault::Line(number)),
    }
}

/// Returns the words after the name in the first line of a text, and the text after that line. `number` is the number
/// of that line.
fn take_words<'a>(
    text: &'a [u8],
    number: u64,
    name: &[u8],
) -> Result<(&'a [u8], &'a [u8]), StateFault>
    ensures ok { IfOk result (λ found.
        line_read (after_prefix name.now 32) text.now ≡ Some (found.0.now, found.1.now)) }
    ensures err { IfErr result
        (λ why. UnreadState (line_read (after_prefix name.now 32) text.now) why) }
{
    let (line, rest) = take_line(text, number)?;
    let words = after_prefix(name, line).ok_or(StateFault::Line(number))?;
    Ok((words, rest))
}

fn take_times(text: &[u8]) -> Result<((u64, u64), &[u8]), StateFault>
    ensures ok { IfOk result (λ found. times_read text.now ≡ Some (found.0, found.1.now)) }
    ensures err { IfErr result (λ why. UnreadState (times_read text.now) why) }
{
    let (words, rest) = take_words(text, 2, b"generation")?;
    let generation = read_generation(words).ok_or(StateFault::Line(2))?;
    let (words, rest) = take_words(rest, 3, b"clock")?;
    let time = read_number(words).ok_or(StateFault::Line(3))?;
    Ok(((generation, time), rest))
}

fn take_places(text: &[u8]) -> Result<(((Option<Stage>, u16), Goal), &[u8]), StateFault>
    ensures ok { IfOk result (λ found. places_read text.now ≡ Some (found.0, found.1.now)) }
    ensures err { IfErr result (λ why. UnreadState (places_read text.now) why) }
{
    let (words, rest) = take_words(text, 4, b"stage")?;
    let stage = read_stage_pair(words).ok_or(StateFault::Line(4))?;
    let (words, rest) = take_words(rest, 5, b"goal")?;
    let goal = read_goal(b' ', words).ok_or(StateFault::Line(5))?;
    Ok(((stage, goal), rest))
}

fn take_wishes(text: &[u8]) -> Result<(((bool, bool), WishFields), &[u8]), StateFault>
    ensures ok { IfOk result (λ found. flags_read text.now ≡ Some (found.0, found.1.now)) }
    ensures err { IfErr result (λ why. UnreadState (flags_read text.now) why) }
{
    let (words, rest) = take_words(text, 6, b"flags")?;
    let flags = read_two_bits(words).ok_or(StateFault::Line(6))?;
    let (words, rest) = take_words(rest, 7, b"wish")?;
    let wishes = read_wishes(words).ok_or(StateFault::Line(7))?;
    Ok(((flags, wishes), rest))
}

fn fields_of(
    times: (u64, u64),
    places: ((Option<Stage>, u16), Goal),
    wishes: ((bool, bool), WishFields),
) -> CoreFields
    ensures { result ≡ fields_made (times, (places, wishes)) }
{
    let ((stage, grace), goal) = places;
    let ((booted, announced), ((reread, reexec), (level_wish, (powers, letters)))) = wishes;
    CoreFields {
        generation: times.0,
        time: times.1,
        stage,
        grace,
        goal,
        booted,
        announced,
        reread,
        reexec,
        level_wish,
        pending: CallSet {
            fail: powers.0,
            fail_now: powers.1.0,
            ok: powers.1.1,
            a: letters.0,
            b: letters.1.0,
            c: letters.1.1,
        },
    }
}

/// Reads the fields at the start of a text, and returns the text after them.
fn take_fields(text: &[u8]) -> Result<(CoreFields, &[u8]), StateFault>
    ensures ok { IfOk result (λ found. fields_read text.now ≡ Some (found.0, found.1.now)) }
    ensures err { IfErr result (λ why. UnreadState (fields_read text.now) why) }
{
    let (times, rest) = take_times(text)?;
    let (places, rest) = take_places(rest)?;
    let (wishes, rest) = take_wishes(rest)?;
    Ok((fields_of(times, places, wishes), rest))
}

/// Returns whether the version allows the length of the entry's id.
fn holds_id(version: Version, entry: &Entry) -> bool
    ensures { result ≡ holds_id version entry.now.id }
{
    entry.id.as_bytes().len() <= version.id_limit()
}

/// Returns whether the version allows the lengths of all ids.
fn holds_ids(version: Version, entries: &[Entry]) -> bool
    ensures { result ≡ list_all (λ (e : Entry). holds_id version e.id) entries.now }
{
    entries.iter().all(|entry| holds_id(version, entry))
}

/// Returns whether the version allows this number of entries and the lengths of their ids.
fn holds_table(version: Version, entries: &[Entry]) -> bool
    ensures { result ≡ holds_table version entries.now }
{
    entries.len() <= version.entry_limit() && holds_ids(version, entries)
}

/// Reads the table that consists of the given number of lines, if the version allows its size, and returns the text
/// after it.
fn table_in<A: Allocator + Copy>(
    alloc: A,
    version: Version,
    count: usize,
    text: &[u8],
) -> Result<Option<(Table<A>, &[u8])>, Memory>
    ensures { IfOk result (λ found.
        option_map (λ parts. (parts.0, parts.1.now)) found ≡ table_in version count text.now) }
{
    let Some((table, rest)) = table_begun(alloc, count, text)? else {
        return Ok(None);
    };
    if holds_table(version, table.entries()) {
        Ok(Some((table, rest)))
    } else {
        Ok(None)
    }
}

/// Returns how many of the first lines form a table, given that the first `count` lines do not. Finds the first line
/// that does not fit by bisection.
fn table_lines<A: Allocator + Copy>(
    alloc: A,
    version: Version,
    count: usize,
    text: &[u8],
) -> Result<u64, Memory> {
    let mut known = 0;
    let mut rest = count;
    while rest > 1 {
        let half = rest / 2;
        if table_in(alloc, version, known + half, text)?.is_some() {
            known += half;
        }
        rest -= half;
    }
    Ok(known as u64)
}

/// Reads the table at the start of a text, preceded by the number of its entries, and returns the text after it.
fn take_table<A: Allocator + Copy>(
    alloc: A,
    version: Version,
    text: &[u8],
) -> Result<(Table<A>, &[u8]), StateFault>
    ensures ok { IfOk result (λ found. table_read version text.now ≡ Some (found.0, found.1.now)) }
    ensures err { IfErr result (λ why. UnreadState (table_read version text.now) why) }
{
    let (words, rest) = take_words(text, 8, b"table")?;
    let count = read_number(words).ok_or(StateFault::Line(8))? as usize;
    match table_in(alloc, version, count, rest)? {
        Some(found) => Ok(found),
        None => {
            let lines = table_lines(alloc, version, count, rest)?;
            Err(StateFault::Line(lines.saturating_add(9)))
        }
    }
}

fn keep<A: Allocator>(records: &mut Vec<PlainSlot, A>, slot: PlainSlot) -> Result<(), AllocError>
    ensures { OnOk result (records.new.items ≡ records.old.items ++ slot ∷ []) }
{
    records.push(slot)?;
    Ok(())
}

/// Reads the record in the first line of a text, which has this number, and returns the text after it.
fn take_record(version: Version, text: &[u8], number: u64) -> Result<(PlainSlot, &[u8]), StateFault>
    ensures ok { IfOk result (λ found.
        line_read (slot_line_read version) text.now ≡ Some (found.0, found.1.now)) }
    ensures err { IfErr result (λ why.
        UnreadState (line_read (slot_line_read version) text.now) why) }
{
    let (line, rest) = take_line(text, number)?;
    let slot = read_slot_line(version, line).ok_or(StateFault::Line(number))?;
    Ok((slot, rest))
}

/// Reads records, one per line, up to the end of the text. The first line has the number `first`.
fn take_records<A: Allocator>(
    alloc: A,
    version: Version,
    text: &[u8],
    first: u64,
) -> Result<Vec<PlainSlot, A>, StateFault>
    ensures ok { IfOk result (λ records. AreRecords version text.now records.items) }
    ensures err { IfErr result (λ why. OnLine (NoRecords version text.now) why) }
{
    let mut records = Vec::new(alloc);
    let mut rest = text;
    while !rest.is_empty() {
        let number = first.saturating_add(records.len() as u64);
        let (slot, more) = take_record(version, rest, number)?;
        keep(&mut records, slot)?;
        rest = more;
    }
    Ok(records)
}

/// Returns the version named in the first line, and the text after it.
fn take_version(text: &[u8]) -> Option<(Version, &[u8])>
    ensures { option_map (λ parts. (parts.0, parts.1.now)) result ≡ version_read text.now }
{
    let (line, rest) = cut(b'\n', text)?;
    Some((read_version(line)?, rest))
}

/// Reads the lines before the last one.
fn read_body<A: Allocator + Copy>(alloc: A, text: &[u8]) -> Result<Parts<A>, StateFault>
    ensures ok { IfOk result (λ parts. IsBody text.now parts) }
    ensures version { version_read text.now ≡ None → result ≡ Err StateFault.Version }
    ensures err { IfErr result (λ why. RefusedBody text.now why) }
{
    let (version, rest) = take_version(text).ok_or(StateFault::Version)?;
    let (fields, rest) = take_fields(rest)?;
    let (table, rest) = take_table(alloc, version, rest)?;
    let first = 9 + table.len() as u64;
    let records = take_records(alloc, version, rest, first)?;
    Ok(Parts {
        fields,
        table,
        records,
    })
}

/// Returns whether the last line states this number of lines before it.
fn counts(last: &[u8], lines: u64) -> bool
    ensures right { result ≡ true → end_line_read last.now ≡ Some lines }
    ensures wrong { result ≡ false → end_line_read last.now ≢ Some lines }
{
    match read_end_line(last) {
        Some(count) => count == lines,
        None => false,
    }
}

/// Reads the text of a state of this generation.
///
/// The fault names the first check that fails: that the text is whole (`Cut`), its first line (`Version`), the other
/// lines (`Line`), the generation (`Generation`). Each version has a different grammar.
pub fn read_state<A: Allocator + Copy>(
    alloc: A,
    text: &[u8],
    generation: u64,
) -> Result<Parts<A>, StateFault>
    ensures read { IfOk result (λ parts. IsTextOf text.now parts) }
    ensures generation { IfOk result (λ parts. parts.fields.generation ≡ generation) }
    // Only the returned state has this text, and the text of a state of this generation is accepted unless memory runs
    // out.
    ensures only { (state : SavedState) → IsTextOf text.now state
        → state.fields.generation ≡ generation
        → MatchResult result (λ parts. parts ≡ state) (λ why. why ≡ StateFault.Memory) }
    // The first two checks do not allocate.
    ensures cut { IsCut text.now → result ≡ Err StateFault.Cut }
    ensures version { IsOtherVersion text.now → result ≡ Err StateFault.Version }
    ensures refused { IfErr result (λ why. Refused text.now generation why) }
{
    let (body, last) = split_end(text).ok_or(StateFault::Cut)?;
    let parts = read_body(alloc, body)?;
    let lines = newlines(body) as u64;
    if !counts(last, lines) {
        return Err(StateFault::Line(lines.saturating_add(1)));
    }
    if parts.fields.generation != generation {
        return Err(StateFault::Generation);
    }
    Ok(parts)
}

fn second_line(text: &[u8]) -> Option<u64>
    ensures { result ≡ generation_of text.now }
{
    let (_, rest) = cut(b'\n', text)?;
    let (line, _) = cut(b'\n', rest)?;
    read_generation_line(line)
}

/// Returns the generation named in the second line of a text, if that line exists and names one. For the text of a
/// state, it is that state's generation.
pub fn generation_of(text: &[u8]) -> Option<u64>
    ensures value { result ≡ generation_of text.now }
    ensures said { (state : SavedState) → IsTextOf text.now state
        → result ≡ Some state.fields.generation }
{
    second_line(text)
}

//! Reads the words in the lines of a state text.

ghost use Rattle.std.specs.Prelude.{◌≡◌, codes};
ghost use Rattle.std.specs.Option.{option_map};
ghost use Rattle.core_text.specs.CommonWords.{same_id, stage_of_word, order_of_word, child_of_word, act_read};
ghost use Rattle.core_text.specs.Reading.{dash_read, or_read, time_read, generation_read, bit_read, one_bit, two_bits, three_bits, four_bits, goal_read, signal_read, stop_read, starts_read, id_in_read, status_read, version_of_line};

use crate::versions::Version;
use arrayvec::ArrayVec;
use child_table::Stop;
use init_words::{Act, ChildNumber, Id, OrderKind, Stage, Status};
use respawn_limit::STARTS;
use text_lines::{cut, read_number};
use trace_events::Goal;
use trace_text::words::{
    is, read_child, read_code, read_level, read_order, read_seconds, read_stage,
};

fn is_dash(word: &[u8]) -> bool
    ensures { result ≡ same_id word.now (codes "-") }
{
    is(word, b"-")
}

/// Returns the version that the first line of a text names.
pub(crate) fn read_version(line: &[u8]) -> Option<Version>
    ensures { result ≡ version_of_line line.now }
{
    if is(line, b"initd-state 1") {
        return Some(Version::V1);
    }
    if is(line, b"initd-state 2") {
        return Some(Version::V2);
    }
    None
}

/// Reads an id, if the version allows its length.
pub(crate) fn read_id(version: Version, word: &[u8]) -> Option<Id>
    ensures { result ≡ id_in_read version word.now }
{
    let id = Id::read(word)?;
    if id.as_bytes().len() <= version.id_limit() {
        Some(id)
    } else {
        None
    }
}

/// Reads a stage, or `none`.
pub(crate) fn read_stage_or_none(word: &[u8]) -> Option<Option<Stage>>
    ensures { result ≡ or_read (codes "none") stage_of_word word.now }
{
    if is(word, b"none") {
        return Some(None);
    }
    Some(Some(read_stage(word)?))
}

/// Reads a generation, which is at least 1.
pub(crate) fn read_generation(word: &[u8]) -> Option<u64>
    ensures { result ≡ generation_read word.now }
{
    let generation = read_number(word)?;
    if generation >= 1 {
        Some(generation)
    } else {
        None
    }
}

/// Reads a level and its grace period in seconds, separated by this byte.
pub(crate) fn read_goal(mark: u8, words: &[u8]) -> Option<Goal>
    ensures { result ≡ goal_read mark words.now }
{
    let (level, grace) = cut(mark, words)?;
    Some(Goal {
        level: read_level(level)?,
        grace: read_seconds(grace)?,
    })
}

/// Reads a level and its grace period in seconds, or a dash.
pub(crate) fn read_goal_or_dash(word: &[u8]) -> Option<Option<Goal>>
    ensures { result ≡ dash_read (goal_read 58) word.now }
{
    if is_dash(word) {
        return Some(None);
    }
    Some(Some(read_goal(b':', word)?))
}

fn read_bit(byte: u8) -> Option<bool>
    ensures { result ≡ bit_read byte }
{
    match byte {
        b'0' => Some(false),
        b'1' => Some(true),
        _ => None,
    }
}

fn read_one_bit(word: &[u8]) -> Option<bool>
    ensures { result ≡ one_bit word.now }
{
    let [byte] = word else {
        return None;
    };
    read_bit(*byte)
}

/// Reads two flags.
pub(crate) fn read_two_bits(word: &[u8]) -> Option<(bool, bool)>
    ensures { result ≡ two_bits word.now }
{
    let [byte, rest @ ..] = word else {
        return None;
    };
    Some((read_bit(*byte)?, read_one_bit(rest)?))
}

/// Reads three flags.
pub(crate) fn read_three_bits(word: &[u8]) -> Option<(bool, (bool, bool))>
    ensures { result ≡ three_bits word.now }
{
    let [byte, rest @ ..] = word else {
        return None;
    };
    Some((read_bit(*byte)?, read_two_bits(rest)?))
}

/// Reads four flags.
pub(crate) fn read_four_bits(word: &[u8]) -> Option<(bool, (bool, (bool, bool)))>
    ensures { result ≡ four_bits word.now }
{
    let [byte, rest @ ..] = word else {
        return None;
    };
    Some((read_bit(*byte)?, read_three_bits(rest)?))
}

/// Reads the number of a child, or a dash.
pub(crate) fn read_child_or_dash(word: &[u8]) -> Option<Option<ChildNumber>>
    ensures { result ≡ dash_read child_of_word word.now }
{
    if is_dash(word) {
        return Some(None);
    }
    Some(Some(read_child(word)?))
}

/// Reads an action, or a dash.
pub(crate) fn read_act_or_dash(word: &[u8]) -> Option<Option<Act>>
    ensures { result ≡ dash_read act_read word.now }
{
    if is_dash(word) {
        return Some(None);
    }
    Some(Some(Act::read(word)?))
}

/// Reads an order, or a dash.
pub(crate) fn read_order_or_dash(word: &[u8]) -> Option<Option<OrderKind>>
    ensures { result ≡ dash_read order_of_word word.now }
{
    if is_dash(word) {
        return Some(None);
    }
    Some(Some(read_order(word)?))
}

fn read_signal(name: &[u8], time: &[u8]) -> Option<Stop>
    ensures { result ≡ signal_read (name.now, time.now) }
{
    if is(name, b"term") {
        return Some(Stop::Termed(read_number(time)?));
    }
    if is(name, b"kill") {
        return Some(Stop::Killed(read_number(time)?));
    }
    None
}

fn read_stop(word: &[u8]) -> Option<Stop>
    ensures { result ≡ stop_read word.now }
{
    if is(word, b"due") {
        return Some(Stop::Due);
    }
    let (name, time) = cut(b':', word)?;
    read_signal(name, time)
}

/// Reads a stop state, or a dash.
pub(crate) fn read_stop_or_dash(word: &[u8]) -> Option<Option<Stop>>
    ensures { result ≡ dash_read stop_read word.now }
{
    if is_dash(word) {
        return Some(None);
    }
    Some(Some(read_stop(word)?))
}

/// Reads a time, or a dash.
pub(crate) fn read_time_or_dash(word: &[u8]) -> Option<Option<u64>>
    ensures { result ≡ dash_read time_read word.now }
{
    if is_dash(word) {
        return Some(None);
    }
    Some(Some(read_number(word)?))
}

/// Reads the status of a child that ended.
fn read_status(word: &[u8]) -> Option<Status>
    ensures { result ≡ status_read word.now }
{
    if is(word, b"killed") {
        return Some(Status::Killed);
    }
    let (name, code) = cut(b':', word)?;
    if is(name, b"exit") {
        read_code(code)
    } else {
        None
    }
}

/// Reads the status of a child that ended, or a dash.
pub(crate) fn read_status_or_dash(word: &[u8]) -> Option<Option<Status>>
    ensures { result ≡ dash_read status_read word.now }
{
    if is_dash(word) {
        return Some(None);
    }
    Some(Some(read_status(word)?))
}

/// Reads the times of starts, separated by commas, or a dash.
pub(crate) fn read_starts(word: &[u8]) -> Option<ArrayVec<u64, STARTS>>
    ensures { option_map (λ starts. starts.items) result ≡ starts_read word.now }
{
    let mut starts = ArrayVec::new();
    if is_dash(word) {
        return Some(starts);
    }
    let mut rest = word;
    while let Some((first, more)) = cut(b',', rest) {
        let Some(time) = read_number(first) else {
            return None;
        };
        if starts.is_full() {
            return None;
        }
        starts.push(time);
        rest = more;
    }
    let Some(time) = read_number(rest) else {
        return None;
    };
    if starts.is_full() {
        return None;
    }
    starts.push(time);
    Some(starts)
}

//! Reads the fields in the lines of a state text.

ghost use Rattle.std.specs.Prelude.{◌≡◌};
ghost use Rattle.std.specs.Option.{option_map};
ghost use Rattle.core_text.specs.declared.versions.Version.TheVariants.{V1, V2};
ghost use Rattle.core_text.specs.Reading.{limits_read, marks_read, slot_words_read, generation_line_read, wishes_read, stage_pair_read, end_line_read, slot_line_read, ends_read, reread_read, pair_read, three_bits, slot_made, record_made, after_prefix};

use crate::versions::Version;
use crate::words::{
    read_act_or_dash, read_child_or_dash, read_four_bits, read_generation, read_goal_or_dash,
    read_id, read_order_or_dash, read_stage_or_none, read_starts, read_status_or_dash,
    read_stop_or_dash, read_three_bits, read_time_or_dash, read_two_bits,
};
use arrayvec::ArrayVec;
use child_table::Stop;
use core_model::PlainSlot;
use init_words::{Act, ChildNumber, Id, OrderKind, Stage, Status};
use respawn_limit::STARTS;
use text_lines::{cut, read_number};
use trace_events::Goal;
use trace_text::words::{is, read_seconds};

/// Returns the text after a name and a blank, if the line begins with them.
pub(crate) fn after_prefix<'a>(name: &[u8], line: &'a [u8]) -> Option<&'a [u8]>
    ensures { option_map (λ rest. rest.now) result ≡ after_prefix name.now 32 line.now }
{
    let (word, rest) = cut(b' ', line)?;
    if is(word, name) { Some(rest) } else { None }
}

/// Reads the line with the generation.
pub(crate) fn read_generation_line(line: &[u8]) -> Option<u64>
    ensures { result ≡ generation_line_read line.now }
{
    read_generation(after_prefix(b"generation", line)?)
}

/// Reads the stage and its grace period in seconds.
pub(crate) fn read_stage_pair(words: &[u8]) -> Option<(Option<Stage>, u16)>
    ensures { result ≡ stage_pair_read words.now }
{
    let (stage, grace) = cut(b' ', words)?;
    let stage = read_stage_or_none(stage)?;
    let grace = read_seconds(grace)?;
    if stage.is_none() && grace != 0 {
        return None;
    }
    Some((stage, grace))
}

/// Reads whether a reading of inittab is pending. The next bit must be 0, because a re-execution is no longer pending
/// once it is under way.
fn read_reread(word: &[u8]) -> Option<(bool, bool)>
    ensures { result ≡ reread_read word.now }
{
    let (reread, reexec) = read_two_bits(word)?;
    if reexec {
        return None;
    }
    Some((reread, reexec))
}

/// Three flags, one for each power event or one for each letter.
type Bits = (bool, (bool, bool));

/// The pending requests: to read inittab again, to re-execute init, to change to a level, and the flags of the power
/// events and of the letters.
pub(crate) type WishFields = ((bool, bool), (Option<Goal>, (Bits, Bits)));

fn read_news(words: &[u8]) -> Option<(Bits, Bits)>
    ensures { result ≡ pair_read 32 three_bits three_bits words.now }
{
    let (powers, letters) = cut(b' ', words)?;
    Some((read_three_bits(powers)?, read_three_bits(letters)?))
}

/// Reads the words in the line of the pending requests.
pub(crate) fn read_wishes(words: &[u8]) -> Option<WishFields>
    ensures { result ≡ wishes_read words.now }
{
    let (bits, words) = cut(b' ', words)?;
    let bits = read_reread(bits)?;
    let (level, words) = cut(b' ', words)?;
    Some((bits, (read_goal_or_dash(level)?, read_news(words)?)))
}

/// Reads the last line, which contains the number of lines before it.
pub(crate) fn read_end_line(line: &[u8]) -> Option<u64>
    ensures { result ≡ end_line_read line.now }
{
    read_number(after_prefix(b"end", line)?)
}

/// The last starts, and how the last child ended.
type Ends = (ArrayVec<u64, STARTS>, Option<Status>);

fn read_old_ends(words: &[u8]) -> Option<Ends>
    ensures { option_map (λ p. (p.0.items, p.1)) result ≡ ends_read V1 words.now }
{
    Some((read_starts(words)?, None))
}

fn read_new_ends(words: &[u8]) -> Option<Ends>
    ensures { option_map (λ p. (p.0.items, p.1)) result ≡ ends_read V2 words.now }
{
    let (starts, last) = cut(b' ', words)?;
    Some((read_starts(starts)?, read_status_or_dash(last)?))
}

/// Reads the end of a slot line, from its starts on.
fn read_ends(version: Version, words: &[u8]) -> Option<Ends>
    ensures { option_map (λ p. (p.0.items, p.1)) result ≡ ends_read version words.now }
{
    match version {
        Version::V1 => read_old_ends(words),
        Version::V2 => read_new_ends(words),
    }
}

/// Reads the end of the last hold and the fields after it.
fn read_limits(version: Version, words: &[u8]) -> Option<(Option<u64>, Ends)>
    ensures { option_map (λ p. (p.0, (p.1.0.items, p.1.1))) result ≡ limits_read version words.now }
{
    let (held, ends) = cut(b' ', words)?;
    Some((read_time_or_dash(held)?, read_ends(version, ends)?))
}

/// Reads the end of a slot line, from its stop state on.
fn read_marks(
    version: Version,
    id: Id,
    child: Option<ChildNumber>,
    act: Option<Act>,
    order: Option<OrderKind>,
    words: &[u8],
) -> Option<PlainSlot>
    ensures { result ≡ option_map (record_made id child act order) (marks_read version words.now) }
{
    let (stop, words) = cut(b' ', words)?;
    let stop = read_stop_or_dash(stop)?;
    let (flags, words) = cut(b' ', words)?;
    let (asked, (called, (look, missed))) = read_four_bits(flags)?;
    let (held_until, (starts, last)) = read_limits(version, words)?;
    Some(PlainSlot {
        id,
        child,
        act,
        order,
        stop,
        asked,
        called,
        look,
        missed,
        held_until,
        starts,
        last,
    })
}

fn read_slot(version: Version, words: &[u8]) -> Option<PlainSlot>
    ensures { result ≡ option_map slot_made (slot_words_read version words.now) }
{
    let (id, words) = cut(b' ', words)?;
    let id = read_id(version, id)?;
    let (child, words) = cut(b' ', words)?;
    let child = read_child_or_dash(child)?;
    let (act, words) = cut(b' ', words)?;
    let act = read_act_or_dash(act)?;
    let (order, words) = cut(b' ', words)?;
    let order = read_order_or_dash(order)?;
    read_marks(version, id, child, act, order, words)
}

/// Reads the line of a record.
pub(crate) fn read_slot_line(version: Version, line: &[u8]) -> Option<PlainSlot>
    ensures { result ≡ slot_line_read version line.now }
{
    read_slot(version, after_prefix(b"slot", line)?)
}

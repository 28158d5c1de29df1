//! Reads the text of a trace, one happening at a time.

ghost use Rattle.std.specs.Prelude.{◌≡◌, ◌∷◌, List, true, Some, option_map, IfOk, IfErr, IfSome, IfNone, OnOk, ◌++◌, []};
ghost use Rattle.std.specs.Result.{MatchResult};
ghost use Rattle.trace_events.specs.Event.{Event};
ghost use Rattle.trace_text.specs.Lines.{event_text, trace_text};
ghost use Rattle.trace_events.specs.Range.{is_in_range, are_in_range};
ghost use Rattle.trace_text.specs.Texts.{Begun, line_count, BeginsNone, UnreadTrace};
ghost use Rattle.trace_text.specs.Reading.{begun, use_begun};

use crate::words::{read_line, read_use};
use init_words::Memory;
use inittab_text::table_begun;
use std::alloc::{AllocError, Allocator};
use text_lines::cut;
use thiserror::Error;
use trace_events::{Happening, HappeningIn};

/// The length in bytes of the longest line of a trace, without its newline. That line is an inittab entry.
pub const LINE_LIMIT: usize = 161;

/// The reason why the text of a trace could not be read.
#[derive(Clone, Copy, Debug, PartialEq, Eq, Error)]
pub enum ReadFault {
    /// No happening begins at the line with this number, counted from 1.
    #[error("line {0} does not begin a happening")]
    Line(u64),
    /// Memory allocation failed.
    #[error("out of memory")]
    Memory,
}

impl From<Memory> for ReadFault {
    ghost use Rattle.std.specs.Prelude.{◌≡◌};
    ghost use Rattle.trace_text.specs.declared.reading.ReadFault.TheVariants.{Memory};

    ghost from_gives = { λ _ fault. fault ≡ Memory };

    fn from(_error: Memory) -> ReadFault {
        ReadFault::Memory
    }
}

impl From<AllocError> for ReadFault {
    ghost use Rattle.std.specs.Prelude.{◌≡◌};
    ghost use Rattle.trace_text.specs.declared.reading.ReadFault.TheVariants.{Memory};

    ghost from_gives = { λ _ fault. fault ≡ Memory };

    fn from(_error: AllocError) -> ReadFault {
        ReadFault::Memory
    }
}

/// A happening and the text after it, if any.
type ReadHappening<'a, A> = Option<(HappeningIn<A>, &'a [u8])>;

/// Reads the table that consists of the given number of lines at the start of a text.
fn first_table<A: Allocator + Copy>(
    alloc: A,
    count: usize,
    text: &[u8],
) -> Result<ReadHappening<'_, A>, Memory>
    ensures { IfOk result (λ found.
        option_map (λ parts. (parts.0, parts.1.now)) found ≡ use_begun count text.now) }
{
    let found = table_begun(alloc, count, text)?;
    Ok(found.map(|(table, rest)| (Happening::NewTable(table), rest)))
}

fn first_by_words<A: Allocator + Copy>(
    alloc: A,
    text: &[u8],
) -> Result<ReadHappening<'_, A>, Memory>
    ensures { IfOk result (λ found.
        option_map (λ parts. (parts.0, parts.1.now)) found ≡ begun text.now) }
{
    let Some((line, rest)) = cut(b'\n', text) else {
        return Ok(None);
    };
    match read_use(line) {
        Some(count) => first_table(alloc, count, rest),
        None => Ok(read_line(line).map(|happening| (happening, rest))),
    }
}

/// Reads the first happening of a text. Returns it with the text after it, or `None` if no happening begins there. The
/// lines of a table belong to its `use` line.
pub fn first_happening<A: Allocator + Copy>(
    alloc: A,
    text: &[u8],
) -> Result<Option<(HappeningIn<A>, &[u8])>, Memory>
    ensures found { IfOk result (λ found. IfSome found (λ parts.
        (is_in_range parts.0 ≡ true) × (event_text parts.0 ++ parts.1.now ≡ text.now))) }
    // The text does not begin with any other happening.
    ensures only { IfOk result (λ found. (happening : Event) (more : List _)
        → is_in_range happening ≡ true → event_text happening ++ more ≡ text.now
        → option_map {U = Begun} (λ parts. (parts.0, parts.1.now)) found ≡ Some (happening, more)) }
    ensures none { IfOk result (λ found. IfNone found (BeginsNone text.now)) }
{
    first_by_words(alloc, text)
}

/// Returns the number of lines of a happening: one, and one more for each entry of a new table.
pub fn line_count<A: Allocator>(happening: &HappeningIn<A>) -> u64
    ensures { result ≡ line_count happening.now }
{
    match happening {
        Happening::NewTable(table) => table.len() as u64 + 1,
        _ => 1,
    }
}

fn keep<A: Allocator>(
    trace: &mut Vec<HappeningIn<A>, A>,
    happening: HappeningIn<A>,
) -> Result<(), AllocError>
    ensures { OnOk result (trace.new.items ≡ trace.old.items ++ happening ∷ []) }
{
    trace.push(happening)?;
    Ok(())
}

/// Reads the text of a trace and returns its happenings, oldest first. Printing them yields the same text. If the text
/// is not a trace, the fault `Line` gives the number of the first line at which no happening begins.
pub fn read<A: Allocator + Copy>(alloc: A, text: &[u8]) -> Result<Vec<HappeningIn<A>, A>, ReadFault>
    ensures read { IfOk result (λ trace.
        (are_in_range trace.items ≡ true) × (trace_text trace.items ≡ text.now)) }
    // No other trace has this text, and the text of a trace is read unless memory allocation fails.
    ensures only { (trace : List Event) → are_in_range trace ≡ true → trace_text trace ≡ text.now
        → MatchResult result (λ got. got.items ≡ trace) (λ fault. fault ≡ ReadFault.Memory) }
    ensures unread { IfErr result (λ fault. UnreadTrace text.now fault) }
{
    let mut trace = Vec::new(alloc);
    let mut rest = text;
    let mut number = 1;
    while !rest.is_empty() {
        let Some((happening, more)) = first_happening(alloc, rest)? else {
            return Err(ReadFault::Line(number));
        };
        number += line_count(&happening);
        keep(&mut trace, happening)?;
        rest = more;
    }
    Ok(trace)
}

//! The reason why an id is not started next, and advice about it.

ghost use Rattle.std.specs.Prelude.{◌≡◌, List, IfOk};
ghost use Rattle.initview_lines.specs.CommonWords.{Event, Lined, Viewed};
ghost use Rattle.initview_lines.specs.Reasons.{advice_line, chain_of, fault_line, link_of, reason_line, root_of, stopped_of, why_in};

use crate::lines::{Line, Reason};
use crate::rows::read_row;
use crate::texts::Bytes;
use init_words::Id;
use std::alloc::{AllocError, Global};
use trace_view::{LastLines, TraceView, Why};

/// An id that is not started next, with the line of the trace that explains why, if there is one.
#[derive(Clone, Copy)]
struct Link {
    id: Id,
    line: Option<u64>,
}

/// An id that is not started next, and the id that is the root cause.
#[derive(Clone, Copy)]
pub struct Chain {
    asked: Link,
    root: Link,
}

/// Returns the id that is the root cause: the entry that init waits for, if there is one, otherwise the id itself. The
/// awaited entry does not wait for any other entry.
fn root_of(id: Id, why: Why) -> Id
    ensures { result ≡ root_of id why }
{
    match why {
        Why::StageOwed(awaited) => awaited,
        Why::EarlierOwed(earlier) => earlier,
        _ => id,
    }
}

/// Returns the id whose child must end before init can start this one, if that is the reason; otherwise the id itself.
fn stopped_of(id: Id, why: Why) -> Id
    ensures { result ≡ stopped_of id why }
{
    match why {
        Why::ExcludedKept(child) => child.id,
        _ => id,
    }
}

/// Returns the line that explains the reason, if there still is a reason.
fn fault_line(why: Why, line: Option<u64>) -> Option<u64>
    ensures { result ≡ fault_line why line }
{
    match why {
        Why::Nothing => None,
        _ => line,
    }
}

fn link_of(view: &TraceView, lines: &LastLines, id: Id) -> Link
    ensures { (past : List Event) → Viewed view.now past → Lined lines.now past
        → result ≡ link_of id past }
{
    Link {
        id,
        line: lines.line_at_fault(&id, view.why(&id)),
    }
}

/// Returns the id and its root cause, with their lines.
pub fn chain_of(view: &TraceView, lines: &LastLines, id: Id) -> Chain
    ensures { (past : List Event) → Viewed view.now past → Lined lines.now past
        → result ≡ chain_of id past }
{
    Chain {
        asked: link_of(view, lines, id),
        root: link_of(view, lines, root_of(id, view.why(&id))),
    }
}

/// Returns the reason why an id is not started next, the reason for its root cause, and advice. The line numbers refer
/// to the trace with this name.
pub fn why_lines(
    alloc: Global,
    view: &TraceView,
    name: &[u8],
    chain: &Chain,
) -> Result<Vec<Line>, AllocError>
    ensures { IfOk result (λ lines. (past : List Event) → Viewed view.now past
        → lines.items ≡ why_in name.now chain.now past) }
{
    let mut lines = Vec::new(alloc);
    if chain.asked.id != chain.root.id {
        lines.push(reason_line(alloc, view, name, &chain.asked)?)?;
    }
    lines.push(reason_line(alloc, view, name, &chain.root)?)?;
    lines.push(advice_line(view, &chain.root.id))?;
    Ok(lines)
}

fn reason_line(
    alloc: Global,
    view: &TraceView,
    name: &[u8],
    link: &Link,
) -> Result<Line, AllocError>
    ensures { IfOk result (λ line. (past : List Event) → Viewed view.now past
        → line ≡ reason_line name.now link.now past) }
{
    let trace = Bytes::copy_of(alloc, name)?;
    let reason = Reason {
        at: read_row(view, &link.id),
        stage: view.stage(),
        stopped: read_row(view, &stopped_of(link.id, view.why(&link.id))),
        trace,
        line: fault_line(view.why(&link.id), link.line),
    };
    Ok(Line::Why(reason))
}

fn advice_line(view: &TraceView, id: &Id) -> Line
    ensures { (past : List Event) → Viewed view.now past → result ≡ advice_line id.now past }
{
    let row = view.row(id);
    Line::Advice(view.stage(), row.act, row.why)
}

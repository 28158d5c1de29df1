//! The remains of a run: the children that were born and not reaped, and the entries whose start is open.

ghost use Rattle.std.specs.Prelude.{◌≡◌, ◌++◌, List, filter, map, IfOk, OnOk};
ghost use Rattle.initview_lines.specs.CommonWords.{Event, Viewed, row_of};
ghost use Rattle.initview_lines.specs.Left.{child_line, is_open, is_starting, is_unanswered, left_in, start_line};

use crate::lines::{Line, RowFormat};
use init_words::{ChildNumber, Entry, Id, OrderKind};
use std::alloc::{AllocError, Global};
use trace_view::{BornChild, TraceView};

/// Returns the unreaped children, youngest first, and then the entries whose start is open, in the order of the table.
pub fn left_lines(
    alloc: Global,
    view: &TraceView,
    shape: RowFormat,
) -> Result<Vec<Line>, AllocError>
    ensures { IfOk result (λ lines. (past : List Event) → Viewed view.now past
        → lines.items ≡ left_in shape past) }
{
    let Ok(children) = view.children(alloc) else {
        return Err(AllocError);
    };
    let mut lines = child_lines(alloc, children.as_slice(), shape)?;
    add_starts(&mut lines, view, view.table().entries(), shape)?;
    Ok(lines)
}

/// Reports whether a start of the id is open and the id has no child.
pub fn is_starting(view: &TraceView, id: &Id) -> bool
    ensures { (past : List Event) → Viewed view.now past
        → result ≡ is_starting (row_of id.now past) }
{
    let order = view.order(id);
    order.is_some() && is_unanswered(view.child(id), order)
}

fn is_unanswered(child: Option<ChildNumber>, order: Option<OrderKind>) -> bool
    ensures { result ≡ is_unanswered child order }
{
    matches!((child, order), (None, Some(OrderKind::Start)))
}

fn child_lines(
    alloc: Global,
    children: &[BornChild],
    shape: RowFormat,
) -> Result<Vec<Line>, AllocError>
    ensures { IfOk result (λ lines. lines.items ≡ map (child_line shape) children.now) }
{
    children
        .iter()
        .map(|child| Line::Left(shape, child.id, Some(child.number)))
        .collect(alloc)
}

fn add_starts(
    lines: &mut Vec<Line>,
    view: &TraceView,
    entries: &[Entry],
    shape: RowFormat,
) -> Result<(), AllocError>
    ensures { OnOk result ((past : List Event) → Viewed view.now past → lines.new.items
        ≡ lines.old.items ++ map (start_line shape) (filter (is_open past) entries.now)) }
{
    let mut rest = entries;
    while let Some((entry, others)) = rest.split_first() {
        if is_starting(view, &entry.id) {
            lines.push(Line::Left(shape, entry.id, None))?;
        }
        rest = others;
    }
    Ok(())
}

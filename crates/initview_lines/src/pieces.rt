//! The lines for a text that arrives in pieces.

ghost use Rattle.std.specs.Prelude.{◌≡◌, ◌^◌, ◌<◌, List, ℕ, ◌++◌, length, true, IfOk, OnOk};
ghost use Rattle.initview_lines.specs.Following.{HasFollowedText, FollowsText};
ghost use Rattle.initview_lines.specs.declared.lines.Line.{Line};

use crate::happenings::add_happening;
use crate::lines::Line;
use init_words::Memory;
use trace_view::TextView;

/// Adds the line for the next happening, if the happening is complete.
fn next_line(view: &mut TextView, lines: &mut Vec<Line>) -> Result<bool, Memory>
    ensures goes { IfOk result
        (λ more. (past_lines : List Line) (text : List ℕ) → length text < 2 ^ 64
        → FollowsText more view.old (past_lines ++ lines.old.items) view.new
        (past_lines ++ lines.new.items) text) }
    ensures shorter { IfOk result (λ more. more ≡ true
        → length view.new.reading.over < length view.old.reading.over) }
{
    match view.next()? {
        Some(happening) => {
            add_happening(lines, view.view(), &happening)?;
            Ok(true)
        }
        None => Ok(false),
    }
}

/// Passes the next piece of the text to a view, and adds the lines for all complete happenings. If memory runs out, the
/// view must not be used any more.
pub fn take_lines(view: &mut TextView, piece: &[u8], lines: &mut Vec<Line>) -> Result<(), Memory>
    ensures { OnOk result
        ((past_lines : List Line) (text : List ℕ) → length (text ++ piece.now) < 2 ^ 64
        → HasFollowedText view.old (past_lines ++ lines.old.items) text
        → HasFollowedText view.new (past_lines ++ lines.new.items) (text ++ piece.now)) }
{
    view.feed(piece)?;
    while next_line(view, lines)? {}
    Ok(())
}

//! Finds the beginning and the end of the header of an init script.

ghost use Rattle.std.specs.Prelude.{◌≡◌, ◌<◌, ◌+◌, ◌≤◌, ◌∷◌, [], length, IfNone, IfSome};
ghost use Rattle.std.specs.List.{list_any};
ghost use Rattle.std.specs.Option.{option_map};
ghost use Rattle.text_lines.specs.Lines.{lines_of};
ghost use Rattle.lsb_header.specs.Blocks.{find_header, block_in, is_begin, is_end};

use text_lines::{first_line, without_tail};

/// Reports whether a line begins the header.
#[tactic(auto, unfolding(crate::specs::Blocks::is_begin))]
fn is_begin(line: &[u8]) -> bool
    ensures { result ≡ is_begin line.now }
{
    without_tail(line) == b"### BEGIN INIT INFO".as_slice()
}

/// Reports whether a line ends the header.
#[tactic(auto, unfolding(crate::specs::Blocks::is_end))]
fn is_end(line: &[u8]) -> bool
    ensures { result ≡ is_end line.now }
{
    without_tail(line) == b"### END INIT INFO".as_slice()
}

/// Returns the number of the line that begins the header, and the text after it.
pub fn find_header(text: &[u8]) -> Option<(usize, &[u8])>
    ensures value { option_map (λ parts. (parts.0, lines_of parts.1.now)) result
        ≡ find_header 1 (lines_of text.now) }
    ensures counted { IfSome result (λ parts. parts.0 + length parts.1.now ≤ length text.now) }
{
    let mut rest = text;
    let mut number = 0;
    while !rest.is_empty() {
        let (line, more) = first_line(rest);
        number += 1;
        if is_begin(line) {
            return Some((number, more));
        }
        rest = more;
    }
    None
}

/// Reports whether a line ends the header.
pub(crate) fn has_end(body: &[u8]) -> bool
    ensures { result ≡ list_any is_end (lines_of body.now) }
{
    let mut rest = body;
    while !rest.is_empty() {
        let (line, more) = first_line(rest);
        if is_end(line) {
            return true;
        }
        rest = more;
    }
    false
}

/// Returns the first line of the remaining header, and the text after it.
pub fn block_line(rest: &[u8]) -> Option<(&[u8], &[u8])>
    ensures none { IfNone result (block_in rest.now ≡ []) }
    ensures some { IfSome result (λ parts. block_in rest.now ≡ parts.0.now ∷ block_in parts.1.now) }
    ensures shorter { IfSome result (λ parts. length parts.1.now < length rest.now) }
{
    if rest.is_empty() {
        return None;
    }
    let (line, more) = first_line(rest);
    if is_end(line) {
        return None;
    }
    Some((line, more))
}

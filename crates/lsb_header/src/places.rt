//! Finds the lines of a keyword in a header.

ghost use Rattle.std.specs.Prelude.{◌≡◌, ◌+◌, ◌≤◌, ◌<◌, ◌^◌, length, IfSome};
ghost use Rattle.std.specs.Option.{option_map};
ghost use Rattle.lsb_header.specs.Blocks.{block_in};
ghost use Rattle.lsb_header.specs.Places.{next_line, second_keyword_line};

use crate::blocks::{block_line, find_header};
use crate::forms::has_keyword;
use crate::keywords::Keyword;

/// Returns the number of the next line with a keyword in the remaining header, which follows the line with number
/// `before`, and the text after it.
fn next_line(keyword: Keyword, before: usize, body: &[u8]) -> Option<(usize, &[u8])>
    requires { before + length body.now < 2 ^ 64 }
    ensures value { option_map (λ at. (at.0, block_in at.1.now)) result
        ≡ next_line keyword (before + 1) (block_in body.now) }
    ensures counted { IfSome result (λ at. at.0 + length at.1.now ≤ before + length body.now) }
{
    let mut number = before;
    let mut rest = body;
    while let Some((line, more)) = block_line(rest) {
        number += 1;
        if has_keyword(keyword, line) {
            return Some((number, more));
        }
        rest = more;
    }
    None
}

/// Returns the number of the second line with a keyword in the header of a text, counted from 1 in the text.
#[tactic(auto, unfolding(crate::specs::Places::second_keyword_line))]
pub fn second_keyword_line(text: &[u8], keyword: Keyword) -> Option<usize>
    ensures { result ≡ second_keyword_line text.now keyword }
{
    let (begin, body) = find_header(text)?;
    let (first, more) = next_line(keyword, begin, body)?;
    let (second, _) = next_line(keyword, first, more)?;
    Some(second)
}

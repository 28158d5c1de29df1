//! Checks the lines of a header against LSB Core 5.0, one after another.

ghost use Rattle.std.specs.Prelude.{◌≡◌, ◌<◌, ◌+◌, ◌^◌, [], None, length, map, IfOk, OnOk, IfErr};
ghost use Rattle.std.specs.List.{list_any};
ghost use Rattle.lsb_header.specs.Faults.{IsDue};
ghost use Rattle.lsb_header.specs.Keywords.{same_keyword};
ghost use Rattle.lsb_header.specs.Blocks.{block_fault, block_in, line_fault, seen_after};

use crate::blocks::block_line;
use crate::faults::HeaderFault;
use crate::forms::{known_of, text_of};
use crate::keywords::Keyword;
use std::alloc::Allocator;

fn is_seen(seen: &[Keyword], keyword: Keyword) -> bool
    ensures { result ≡ list_any (same_keyword keyword) seen.now }
{
    seen.iter().any(|other| keyword.is(*other))
}

/// Checks a line, given the keywords of the lines before it, and returns its text.
fn check_line<'t, A: Allocator>(
    seen: &mut Vec<Keyword, A>,
    number: usize,
    line: &'t [u8],
) -> Result<&'t str, HeaderFault>
    ensures text { IfOk result (λ text. text.now ≡ line.now) }
    ensures fine { OnOk result (line_fault seen.old.items number line.now ≡ None) }
    ensures seen { OnOk result (seen.new.items ≡ seen_after seen.old.items line.now) }
    ensures fault { IfErr result (IsDue (line_fault seen.old.items number line.now)) }
{
    let Some(text) = text_of(line) else {
        return Err(HeaderFault::BadLine(number));
    };
    let Some((keyword, _)) = known_of(line) else {
        return Ok(text);
    };
    if is_seen(seen.as_slice(), keyword) {
        return Err(HeaderFault::Twice(keyword));
    }
    seen.push(keyword)?;
    Ok(text)
}

/// Checks the header's lines one by one, and returns their texts. The first line has the number after `begin`.
pub(crate) fn check<'t, A: Allocator + Copy>(
    alloc: A,
    begin: usize,
    body: &'t [u8],
) -> Result<Vec<&'t str, A>, HeaderFault>
    requires { begin + length body.now < 2 ^ 64 }
    ensures texts { IfOk result (λ lines. map (λ line. line.now) lines.items ≡ block_in body.now) }
    ensures fine { OnOk result (block_fault [] (begin + 1) (block_in body.now) ≡ None) }
    ensures fault { IfErr result (IsDue (block_fault [] (begin + 1) (block_in body.now))) }
{
    let mut lines = Vec::new(alloc);
    let mut seen = Vec::new(alloc);
    let mut number = begin;
    let mut rest = body;
    while let Some((line, more)) = block_line(rest) {
        number += 1;
        lines.push(check_line(&mut seen, number, line)?)?;
        rest = more;
    }
    Ok(lines)
}

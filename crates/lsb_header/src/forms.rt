//! The forms of a line of a header.

ghost use Rattle.std.specs.Prelude.{◌≡◌, Some, None, is_some, if◌then◌else◌};
ghost use Rattle.std.specs.Option.{option_map};
ghost use Rattle.lsb_header.specs.Forms.{args_in, body_of, field_of, is_empty_comment, is_indented, is_line, known_of};

use crate::keywords::Keyword;
use std::str;
use text_lines::{cut, has_blank, is_all_blank};

/// Reports whether a line is a `#` followed only by blanks and tabs.
pub(crate) fn is_empty_comment(line: &[u8]) -> bool
    ensures { result ≡ is_empty_comment line.now }
{
    match line {
        [] => false,
        [first, rest @ ..] => *first == b'#' && is_all_blank(rest),
    }
}

/// Reports whether a line is a `#` followed by a tab or two blanks.
pub(crate) fn is_indented(line: &[u8]) -> bool
    ensures { result ≡ is_indented line.now }
{
    match line {
        [b'#', b'\t', ..] | [b'#', b' ', b' ', ..] => true,
        _ => false,
    }
}

/// Returns the text after `#` and one blank.
fn body_of(line: &[u8]) -> Option<&[u8]>
    ensures { option_map (λ body. body.now) result ≡ body_of line.now }
{
    match line {
        [first, second, rest @ ..] if *first == b'#' && *second == b' ' => Some(rest),
        _ => None,
    }
}

/// Returns the word before the first colon of a line `# keyword: args`, and the text after the colon.
#[tactic(auto, unfolding(crate::specs::Forms::field_of))]
fn field_of(line: &[u8]) -> Option<(&[u8], &[u8])>
    ensures { option_map (λ parts. (parts.0.now, parts.1.now)) result ≡ field_of line.now }
{
    let body = body_of(line)?;
    let (word, args) = cut(b':', body)?;
    if word.is_empty() || has_blank(word) {
        return None;
    }
    Some((word, args))
}

/// Returns the text of a line that is allowed in a header.
#[tactic(auto, using(crate::proofs::TextLemmas::not_utf8, crate::proofs::TextLemmas::utf8_text), unfolding(crate::specs::Forms::is_line))]
pub(crate) fn text_of(line: &[u8]) -> Option<&str>
    ensures { option_map (λ text. text.now) result
        ≡ (if is_line line.now then Some line.now else None) }
{
    let Ok(text) = str::from_utf8(line) else {
        return None;
    };
    if is_empty_comment(line) || is_indented(line) || field_of(line).is_some() {
        Some(text)
    } else {
        None
    }
}

/// Returns the keyword of a line, if it is one of the nine, and the text after its colon.
#[tactic(auto, unfolding(crate::specs::Forms::known_of))]
pub fn known_of(line: &[u8]) -> Option<(Keyword, &[u8])>
    ensures { option_map (λ parts. (parts.0, parts.1.now)) result ≡ known_of line.now }
{
    let (word, args) = field_of(line)?;
    let keyword = Keyword::read(word)?;
    Some((keyword, args))
}

/// Reports whether a line has this keyword.
#[tactic(auto, unfolding(crate::specs::Forms::args_in))]
pub(crate) fn has_keyword(keyword: Keyword, line: &[u8]) -> bool
    ensures { result ≡ is_some (args_in keyword line.now) }
{
    match known_of(line) {
        Some((known, _)) => keyword.is(known),
        None => false,
    }
}

/// Returns the text after the colon of a line with this keyword.
pub(crate) fn args_in(keyword: Keyword, line: &str) -> Option<&str>
    ensures { option_map (λ args. args.now) result ≡ args_in keyword line.now }
{
    if has_keyword(keyword, line.as_bytes()) {
        let (_, args) = line.split_once(':')?;
        Some(args)
    } else {
        None
    }
}

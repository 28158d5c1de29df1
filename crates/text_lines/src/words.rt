//! Splits a line into words at blanks and tabs.

ghost use Rattle.std.specs.Prelude.{◌≡◌, ◌<◌, ◌≤◌, ◌∷◌, [], length, IfSome, IfNone};
ghost use Rattle.std.specs.Str.{IsUtf8};
ghost use Rattle.text_lines.specs.Lines.{word_length, words_of};

use crate::blanks::{is_blank, without_blanks};

/// Returns the number of bytes before the first blank or tab.
fn word_length(text: &[u8]) -> usize
    ensures value { result ≡ word_length text.now }
    ensures within { result ≤ length text.now }
{
    let mut end = 0;
    while end < text.len() && !is_blank(text[end]) {
        end += 1;
    }
    end
}

/// Returns the first word of a text and the text after it, or `None` if the text has no word.
pub fn next_word(text: &[u8]) -> Option<(&[u8], &[u8])>
    ensures none { IfNone result (words_of text.now ≡ []) }
    ensures some { IfSome result (λ parts. words_of text.now ≡ parts.0.now ∷ words_of parts.1.now) }
    ensures shorter { IfSome result (λ parts. length parts.1.now < length text.now) }
    ensures utf8 { IfSome result (λ parts.
        IsUtf8 text.now → IsUtf8 parts.0.now × IsUtf8 parts.1.now) }
{
    let rest = without_blanks(text);
    if rest.is_empty() {
        return None;
    }
    let end = word_length(rest);
    Some((&rest[..end], &rest[end..]))
}

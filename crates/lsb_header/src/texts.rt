//! Trims a text and splits it into words.

ghost use Rattle.std.specs.Prelude.{◌≡◌, ◌∷◌, [], IfSome, IfNone};
ghost use Rattle.text_lines.specs.Lines.{skip_blanks, trim, words_of};

use text_lines::without_tail;

/// Returns a text without its leading blanks and tabs.
#[tactic(auto, using(crate::proofs::TextLemmas::blanks_cut, crate::proofs::TextLemmas::blanks_within))]
fn without_blanks(text: &str) -> &str
    ensures { result.now ≡ skip_blanks text.now }
{
    let rest = text_lines::without_blanks(text.as_bytes());
    &text[text.len() - rest.len()..]
}

/// Returns a text without its leading and trailing blanks and tabs.
#[tactic(auto, using(crate::proofs::TextLemmas::end_cut))]
pub(crate) fn trimmed(text: &str) -> &str
    ensures { result.now ≡ trim text.now }
{
    let rest = without_blanks(text);
    let (front, _) = rest.split_at(without_tail(rest.as_bytes()).len());
    front
}

/// Returns the first word of a text, and the text after it.
#[tactic(auto, using(crate::proofs::TextLemmas::word_cut))]
pub(crate) fn next_word(text: &str) -> Option<(&str, &str)>
    ensures none { IfNone result (words_of text.now ≡ []) }
    ensures some { IfSome result (λ parts. words_of text.now ≡ parts.0.now ∷ words_of parts.1.now) }
{
    let (word, _) = text_lines::next_word(text.as_bytes())?;
    Some(without_blanks(text).split_at(word.len()))
}

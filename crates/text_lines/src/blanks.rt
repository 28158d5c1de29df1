//! Tests for blanks and tabs, and functions that trim them.

ghost use Rattle.std.specs.Prelude.{◌≡◌};
ghost use Rattle.std.specs.List.{list_all, list_any as any};
ghost use Rattle.text_lines.specs.Lines.{is_blank, skip_blanks, trim, trim_end};

/// Returns whether a byte is a blank or a tab.
pub fn is_blank(byte: u8) -> bool
    ensures { result ≡ is_blank byte }
{
    byte == b' ' || byte == b'\t'
}

/// Returns whether a text consists only of blanks and tabs, or is empty.
pub fn is_all_blank(text: &[u8]) -> bool
    ensures { result ≡ list_all is_blank text.now }
{
    text.iter().all(|byte| is_blank(*byte))
}

/// Returns whether a text contains a blank or a tab.
pub fn has_blank(text: &[u8]) -> bool
    ensures { result ≡ any is_blank text.now }
{
    text.iter().any(|byte| is_blank(*byte))
}

/// Returns a text without its leading blanks and tabs.
pub fn without_blanks(text: &[u8]) -> &[u8]
    ensures { result.now ≡ skip_blanks text.now }
{
    let mut rest = text;
    while let [b' ' | b'\t', more @ ..] = rest {
        rest = more;
    }
    rest
}

/// Returns a text without its trailing blanks and tabs.
pub fn without_tail(text: &[u8]) -> &[u8]
    ensures { result.now ≡ trim_end text.now }
{
    let mut end = text.len();
    while end > 0 && is_blank(text[end - 1]) {
        end -= 1;
    }
    &text[..end]
}

/// Returns a text without its leading and trailing blanks and tabs.
pub fn trimmed(text: &[u8]) -> &[u8]
    ensures { result.now ≡ trim text.now }
{
    without_tail(without_blanks(text))
}

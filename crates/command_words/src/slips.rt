//! Finds the known word that a misspelt one was probably meant to be.

ghost use Rattle.std.specs.Prelude.{◌≡◌};
ghost use Rattle.command_words.specs.Slips.{is_slip, is_slip_here, is_swapped, meant_of, same_but_case};

/// Returns whether two words are equal, ignoring ASCII case.
fn same_but_case(word: &[u8], meant: &[u8]) -> bool
    ensures { result ≡ same_but_case word.now meant.now }
{
    let Some((a, word)) = word.split_first() else {
        return meant.is_empty();
    };
    let Some((b, meant)) = meant.split_first() else {
        return false;
    };
    a.eq_ignore_ascii_case(b) && same_but_case(word, meant)
}

/// Returns whether the first two letters of two words are swapped and the rest is equal, ignoring ASCII case.
fn is_swapped(word: &[u8], meant: &[u8]) -> bool
    ensures { result ≡ is_swapped word.now meant.now }
{
    match (word, meant) {
        ([a, b, word @ ..], [c, d, meant @ ..]) => {
            a.eq_ignore_ascii_case(d) && b.eq_ignore_ascii_case(c) && same_but_case(word, meant)
        }
        _ => false,
    }
}

/// Returns whether the words differ by one slip at their start: a letter that is replaced, added, missing, or swapped
/// with the next.
fn is_slip_here(word: &[u8], meant: &[u8]) -> bool
    ensures { result ≡ is_slip_here word.now meant.now }
{
    match (word, meant) {
        ([], rest) => rest.len() <= 1,
        (rest, []) => rest.len() <= 1,
        ([_, other @ ..], [_, less @ ..]) => {
            same_but_case(other, less)
                || same_but_case(other, meant)
                || same_but_case(word, less)
                || is_swapped(word, meant)
        }
    }
}

/// Returns whether the words differ by one slip after their common prefix.
pub fn is_slip(word: &[u8], meant: &[u8]) -> bool
    ensures { result ≡ is_slip word.now meant.now }
{
    match (word, meant) {
        ([a, others @ ..], [b, rest @ ..]) if a.eq_ignore_ascii_case(b) => is_slip(others, rest),
        _ => is_slip_here(word, meant),
    }
}

/// Returns the first known word that differs from this one by one slip: a letter that is replaced, added, missing, or
/// swapped with the next. ASCII case is ignored.
pub fn meant_of(known: &[&'static str], word: &str) -> Option<&'static str>
    ensures { result ≡ meant_of known.now word.now }
{
    known
        .iter()
        .copied()
        .find(|meant| is_slip(word.as_bytes(), meant.as_bytes()))
}

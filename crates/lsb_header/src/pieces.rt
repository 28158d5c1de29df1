//! The values of a header's fields: names, runlevels, descriptions.

ghost use Rattle.std.specs.Prelude.{◌≡◌, ◌++◌, map, string_bytes, IfOk, OnOk};
ghost use Rattle.text_lines.specs.Lines.{trim, words_of};
ghost use Rattle.lsb_header.specs.Headers.{text_at};
ghost use Rattle.lsb_header.specs.Blocks.{continued, description_of, level_in, levels_of};

use crate::forms::{args_in, is_empty_comment, is_indented};
use crate::keywords::Keyword;
use crate::texts::{next_word, trimmed};
use init_words::{Level, Memory};
use std::alloc::Allocator;

/// Returns the text after the colon of the line with this keyword, or an empty text if there is no such line.
pub(crate) fn args_of<'t>(keyword: Keyword, lines: &[&'t str]) -> &'t str
    ensures { result.now ≡ text_at keyword (map (λ line. line.now) lines.now) }
{
    for line in lines {
        if let Some(args) = args_in(keyword, line) {
            return args;
        }
    }
    ""
}

/// Returns the words of a text, which are separated by blanks and tabs.
pub(crate) fn words_of<A: Allocator + Copy>(
    alloc: A,
    text: &str,
) -> Result<Vec<String<A>, A>, Memory>
    ensures { IfOk result (λ words. map string_bytes words.items ≡ words_of text.now) }
{
    let mut words = Vec::new(alloc);
    let mut rest = text;
    while let Some((word, more)) = next_word(rest) {
        words.push(String::from_str(alloc, word)?)?;
        rest = more;
    }
    Ok(words)
}

/// Returns the runlevel that a word names, if it is a single character that names a runlevel.
fn level_in(word: &str) -> Option<Level>
    ensures { result ≡ level_in word.now }
{
    match word.as_bytes() {
        [code] => Level::read(*code),
        _ => None,
    }
}

/// Returns the runlevels among the words of a text.
pub(crate) fn levels_of<A: Allocator>(alloc: A, text: &str) -> Result<Vec<Level, A>, Memory>
    ensures { IfOk result (λ levels. levels.items ≡ levels_of (words_of text.now)) }
{
    let mut levels = Vec::new(alloc);
    let mut rest = text;
    while let Some((word, more)) = next_word(rest) {
        if let Some(level) = level_in(word) {
            levels.push(level)?;
        }
        rest = more;
    }
    Ok(levels)
}

/// Appends the continuation lines of a description, each with a blank before it.
fn continue_text<A: Allocator>(text: &mut String<A>, lines: &[&str]) -> Result<(), Memory>
    ensures { OnOk result (string_bytes text.new
        ≡ string_bytes text.old ++ continued (map (λ line. line.now) lines.now)) }
{
    for line in lines {
        if !is_empty_comment(line.as_bytes()) {
            if !is_indented(line.as_bytes()) {
                return Ok(());
            }
            text.push(' ')?;
            text.push_str(trimmed(&line[1..]))?;
        }
    }
    Ok(())
}

/// Returns the short description.
pub(crate) fn short_description_of<A: Allocator>(
    alloc: A,
    lines: &[&str],
) -> Result<String<A>, Memory>
    ensures { IfOk result (λ text. string_bytes text
        ≡ trim (text_at Keyword.ShortDescription (map (λ line. line.now) lines.now))) }
{
    Ok(String::from_str(alloc, trimmed(args_of(Keyword::ShortDescription, lines)))?)
}

/// Returns the description with its continuation lines.
pub(crate) fn description_of<A: Allocator>(alloc: A, lines: &[&str]) -> Result<String<A>, Memory>
    ensures { IfOk result (λ text.
        string_bytes text ≡ description_of (map (λ line. line.now) lines.now)) }
{
    let mut text = String::new(alloc);
    let mut rest = lines;
    while let [line, more @ ..] = rest {
        if let Some(args) = args_in(Keyword::Description, line) {
            text.push_str(trimmed(args))?;
            continue_text(&mut text, more)?;
            return Ok(text);
        }
        rest = more;
    }
    Ok(text)
}

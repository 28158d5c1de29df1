//! Parses texts of rows.

use init_words::{Answer, Id};
use std::alloc::{AllocError, Global};
use trace_events::{Happening, HappeningIn};
use trace_text::first_happening;

/// Returns the fields of a row, which are separated by ` | `; a field `-` is empty.
pub fn fields_of<'r>(global: Global, row: &'r str) -> Result<Vec<&'r str>, AllocError> {
    let mut fields = Vec::new(global);
    for field in row.split(" | ") {
        fields.push(if field == "-" { "" } else { field })?;
    }
    Ok(fields)
}

/// Returns the lines of a text, which are separated by `parted`, each with a newline; none for an empty text. A part `N
/// x LINE, LINE` repeats its lines N times.
pub fn lines_of(global: Global, text: &str, parted: &str) -> Result<String, AllocError> {
    let mut lines = String::new(global);
    if text.is_empty() {
        return Ok(lines);
    }
    for part in text.split(parted) {
        let (count, group) = part.split_once(" x ").unwrap_or(("1", part));
        for _ in 0..count.parse::<u32>().unwrap_or(0) {
            for line in group.split(", ") {
                lines.push_str(line)?;
                lines.push('\n')?;
            }
        }
    }
    Ok(lines)
}

/// Returns the happening in a line, if there is one.
pub fn happening_of(global: Global, line: &str) -> Option<HappeningIn<Global>> {
    let text = lines_of(global, line, " / ").ok()?;
    let (happening, _) = first_happening(global, text.as_bytes()).ok()??;
    Some(happening)
}

/// Returns the answer in a happening, if it has one.
pub fn answer_of(happening: &HappeningIn<Global>) -> Option<(Id, Answer)> {
    Some(match *happening {
        Happening::Birth(id, number) => (id, Answer::Born(number)),
        Happening::NoBirth(id) => (id, Answer::NotBorn),
        Happening::Reaped(id, _, status) => (id, Answer::Ended(status)),
        Happening::Still(id) => (id, Answer::Alive),
        Happening::NoLook(id) => (id, Answer::NoLook),
        Happening::Hit(id) => (id, Answer::Hit),
        Happening::Miss(id) => (id, Answer::Miss),
        _ => return None,
    })
}

//! The words that lines consist of.

use init_words::{Level, Stage, Status};
use itoa::Buffer;
use std::alloc::AllocError;

/// Adds a text.
pub(crate) fn put(text: &mut Vec<u8>, bytes: &[u8]) -> Result<(), AllocError> {
    text.extend_from_slice(bytes)
}

/// Adds a number between two texts.
pub(crate) fn add_number(
    text: &mut Vec<u8>,
    before: &[u8],
    number: u64,
    after: &[u8],
) -> Result<(), AllocError> {
    let mut digits = Buffer::new();
    put(text, before)?;
    put(text, digits.format(number).as_bytes())?;
    put(text, after)
}

/// Adds a word, padded with spaces to a width.
pub(crate) fn add_padded(text: &mut Vec<u8>, width: usize, word: &[u8]) -> Result<(), AllocError> {
    put(text, word)?;
    for _ in word.len()..width {
        text.push(b' ')?;
    }
    Ok(())
}

fn hex_digit(number: u8) -> u8 {
    let zero = if number < 10 { b'0' } else { b'a' - 10 };
    zero.saturating_add(number)
}

/// Adds a text, with control characters escaped as `\xNN`.
pub(crate) fn add_shown(text: &mut Vec<u8>, bytes: &[u8]) -> Result<(), AllocError> {
    for byte in bytes {
        if *byte >= 32 && *byte != 127 {
            text.push(*byte)?;
        } else {
            put(text, b"\\x")?;
            put(text, &[hex_digit(*byte / 16), hex_digit(*byte % 16)])?;
        }
    }
    Ok(())
}

/// Adds a text as `add_shown`, with a byte order mark at its beginning escaped.
pub(crate) fn add_marked(text: &mut Vec<u8>, bytes: &[u8]) -> Result<(), AllocError> {
    match bytes {
        [0xef, 0xbb, 0xbf, rest @ ..] => {
            put(text, b"\\xef\\xbb\\xbf")?;
            add_shown(text, rest)
        }
        _ => add_shown(text, bytes),
    }
}

/// Adds the words for a level.
pub(crate) fn add_level(text: &mut Vec<u8>, level: Level) -> Result<(), AllocError> {
    put(text, b"level ")?;
    put(text, &[level.code()])
}

/// Adds the words for a stage.
pub(crate) fn add_stage(text: &mut Vec<u8>, stage: Option<Stage>) -> Result<(), AllocError> {
    match stage {
        None => put(text, b"startup"),
        Some(Stage::Sysinit) => put(text, b"stage sysinit"),
        Some(Stage::Boot) => put(text, b"stage boot"),
        Some(Stage::Run(level)) => add_level(text, level),
    }
}

/// Adds the words for the end of an id, given the exit status.
pub(crate) fn add_status(text: &mut Vec<u8>, status: Option<Status>) -> Result<(), AllocError> {
    match status {
        None => put(text, b"its start failed"),
        Some(Status::Exit(code)) => add_number(text, b"exit ", u64::from(code), b""),
        Some(Status::Killed) => put(text, b"killed"),
    }
}

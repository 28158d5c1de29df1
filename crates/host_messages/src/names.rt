//! Names of files and programs as they are displayed.

use std::{fmt, str};

/// A name of a file or a program as it is displayed: a control character, which a terminal might act on, is shown as
/// `\xNN`.
#[derive(Clone, Copy)]
pub(crate) struct Escaped<'a>(&'a str);

/// Returns the name for display, or `?` if it is not UTF-8.
pub(crate) fn escape(name: &[u8]) -> Escaped<'_> {
    Escaped(str::from_utf8(name).unwrap_or("?"))
}

impl fmt::Display for Escaped<'_> {
    fn fmt<W: fmt::Write>(&self, f: &mut fmt::Formatter<W>) -> fmt::Result {
        for character in self.0.chars() {
            if character.is_ascii_control() {
                write!(f, "\\x{:02x}", u32::from(character))?;
            } else {
                f.write_char(character)?;
            }
        }
        Ok(())
    }
}

//! The reason why a system call failed, as a text.

use arrayvec::ArrayString;
use std::fmt::{Display, Formatter, Write};
use std::{fmt, io};

/// The maximum length in bytes of a reason from which the error number is removed; a longer reason is printed
/// unchanged.
pub const REASON_LIMIT: usize = 512;

/// The reason of an error in the words of strerror(3), without the error number.
#[derive(Clone, Copy)]
pub struct Reason<'a>(pub &'a io::Error);

impl Display for Reason<'_> {
    fn fmt<W: fmt::Write>(&self, f: &mut Formatter<W>) -> fmt::Result {
        let mut whole: ArrayString<REASON_LIMIT> = ArrayString::new();
        if write!(whole, "{}", self.0).is_err() {
            return Display::fmt(self.0, f);
        }
        match whole.as_str().split_once(" (os error ") {
            Some((reason, _)) => f.pad(reason),
            None => f.pad(whole.as_str()),
        }
    }
}

/// Returns the reason of an error as a text, which is empty if the reason is longer than 512 bytes.
pub fn reason_text(error: &io::Error) -> ArrayString<REASON_LIMIT> {
    let mut text = ArrayString::new();
    let _ = write!(text, "{}", Reason(error));
    text
}

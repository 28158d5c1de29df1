//! Command-line handling that all programs share: parsing by a table of options and arguments, messages for rejected
//! arguments, suggestions for misspelt words, and `--version`.
#![tactic(auto)]

mod arguments;
mod faults;
mod options;
mod rejections;
mod slips;
mod versions;

ghost use Rattle.std.specs.Prelude.{◌≡◌, map, string_bytes};
ghost use Rattle.command_words.specs.CommandLines.{asks_version};

pub use arguments::{Argument, Form, read_arguments};
pub use faults::{WordFault, report_refused_words, report_word_fault};
pub use options::{
    Row, checked, is_set, read_line, read_path, refused, value_of, word_of, words_of,
};
pub use rejections::{invalid_value, rejected, report_rejected, valid};
pub use slips::{is_slip, meant_of};
pub use versions::{KIT, VERSION, print_version, write_version};

/// Returns whether the only argument is `--version`.
pub fn is_version(words: &[String]) -> bool
    ensures { result ≡ asks_version (map string_bytes words.now) }
{
    match words {
        [word] => word.as_str() == "--version",
        _ => false,
    }
}

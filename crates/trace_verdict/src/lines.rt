//! The number of lines of the first happening of a text.

ghost use Rattle.std.specs.Prelude.{◌≡◌};
ghost use Rattle.trace_verdict.specs.Fronts.{lines_due, lines_of};

use text_lines::cut;
use trace_text::words::read_use;

/// Returns the number of lines of the happening that begins with this line.
fn lines_of(line: &[u8]) -> usize
    ensures { result ≡ lines_of line.now }
{
    match read_use(line) {
        Some(count) => count + 1,
        None => 1,
    }
}

/// Returns the number of lines of the first happening of a text, as given by its first line.
pub(crate) fn lines_due(text: &[u8]) -> usize
    ensures { result ≡ lines_due text.now }
{
    match cut(b'\n', text) {
        Some((line, _)) => lines_of(line),
        None => 1,
    }
}

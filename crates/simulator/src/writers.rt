//! Writers whose failures are visible to proofs.

ghost use Rattle.std.specs.Prelude.{◌≡◌, Bool, true, OnOk, OnErr};
ghost use Rattle.std.specs.Io.KnownBytes.{Appends};
ghost use Rattle.simulator.specs.Words.{AppendsFront};

use program_io::write_text;
use std::io;
use std::io::Write;

/// Writes texts to a `W`, and defines for proofs when a `W` has failed.
pub trait ScriptWriter<W: Write> {
    // The writer refused a write, or wrote no byte of one.
    ghost has_failed: { W → Bool };

    /// Writes the whole text. If the writer fails, a proper prefix of the text was written.
    fn put(out: &mut W, text: &[u8]) -> io::Result<()>
        ensures ok { OnOk result (Appends (W.contents out.old) (W.contents out.new) text.now) }
        ensures err { OnErr result
            (AppendsFront (W.contents out.old) (W.contents out.new) text.now) }
        ensures failed { OnErr result (has_failed out.new ≡ true) };
}

/// Writes to a writer whose failures are visible only in the result of a write.
pub struct Untold;

impl<W: Write> ScriptWriter<W> for Untold {
    ghost has_failed = { λ _. true };

    fn put(out: &mut W, text: &[u8]) -> io::Result<()> {
        write_text(out, text)
    }
}

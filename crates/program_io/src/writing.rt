//! Writing whole texts.

ghost use Rattle.std.specs.Prelude.{OnOk, OnErr, flat_map};
ghost use Rattle.std.specs.Io.KnownBytes.{Appends};
ghost use Rattle.program_io.specs.Writing.{AppendsFront, AppendsPrefix};

use std::io;
use std::io::{ErrorKind, Write};

/// Writes the whole text, in as many writes as necessary. If a write fails or accepts no bytes, it returns the error;
/// by then, it has written a proper prefix of the text.
pub fn write_text<W: Write>(out: &mut W, text: &[u8]) -> io::Result<()>
    ensures ok { OnOk result (Appends (W.contents out.old) (W.contents out.new) text.now) }
    ensures err { OnErr result (AppendsFront (W.contents out.old) (W.contents out.new) text.now) }
{
    let mut done = 0;
    while done < text.len() {
        match out.write(&text[done..]) {
            Ok(0) => return Err(io::Error::from(ErrorKind::WriteZero)),
            Ok(taken) => done += taken,
            Err(error) => return Err(error),
        }
    }
    Ok(())
}

/// Writes texts, one after the other, each as `write_text` does.
pub fn write_texts<W: Write>(out: &mut W, texts: &[&str]) -> io::Result<()>
    ensures ok { OnOk result (Appends (W.contents out.old) (W.contents out.new)
        (flat_map (λ text. text.now) texts.now)) }
    ensures err { OnErr result (AppendsFront (W.contents out.old) (W.contents out.new)
        (flat_map (λ text. text.now) texts.now)) }
    ensures part { AppendsPrefix (W.contents out.old) (W.contents out.new)
        (flat_map (λ text. text.now) texts.now) }
{
    for text in texts {
        write_text(out, text.as_bytes())?;
    }
    Ok(())
}

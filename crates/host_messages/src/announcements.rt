//! The lines by which init announces what it did.

ghost use Rattle.std.specs.Prelude.{◌≡◌, ◌++◌, IfOk};
ghost use Rattle.host_messages.specs.Announced.{announcement};

use init_words::{Memory, Stage};
use std::alloc::Allocator;
use trace_events::{Handed, Happening, HappeningIn};

/// Returns the line that init announces for a happening, with its newline. It is empty if init announces nothing.
pub fn announcement_text<A: Allocator, B: Allocator>(
    alloc: A,
    happening: &HappeningIn<B>,
) -> Result<Vec<u8, A>, Memory>
    ensures { IfOk result (λ text. text.items ≡ announcement happening.now) }
{
    match happening {
        Happening::Enter(Stage::Sysinit, _) => {
            joined(alloc, b"INIT: Entering stage sysinit\n", b"", b"")
        }
        Happening::Enter(Stage::Boot, _) => {
            joined(alloc, b"INIT: Entering stage boot\n", b"", b"")
        }
        Happening::Enter(Stage::Run(level), _) => {
            joined(alloc, b"INIT: Entering runlevel: ", &[level.code()], b"\n")
        }
        Happening::Settle(level) => {
            joined(alloc, b"INIT: Runlevel ", &[level.code()], b" settled\n")
        }
        Happening::Hold(id) => joined(
            alloc,
            b"INIT: Id \"",
            id.as_bytes(),
            b"\" respawning too fast: disabled for 5 minutes\n",
        ),
        Happening::NotRead => joined(alloc, b"initd: inittab not read\n", b"", b""),
        Happening::Handed(Handed::Whole) => Ok(Vec::new(alloc)),
        Happening::Handed(_) => joined(alloc, b"initd: re-execution refused\n", b"", b""),
        _ => Ok(Vec::new(alloc)),
    }
}

/// Joins three texts.
fn joined<A: Allocator>(
    alloc: A,
    front: &[u8],
    middle: &[u8],
    back: &[u8],
) -> Result<Vec<u8, A>, Memory>
    ensures { IfOk result (λ text. text.items ≡ front.now ++ (middle.now ++ back.now)) }
{
    let mut text = Vec::from_slice(alloc, front)?;
    text.extend_from_slice(middle)?;
    text.extend_from_slice(back)?;
    Ok(text)
}

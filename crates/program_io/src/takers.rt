//! Receiving a text in pieces.

ghost use Rattle.std.specs.Prelude.{◌≡◌, ◌^◌, ◌<◌, ◌++◌, [], List, ℕ, length, IfSome, OnOk};

use std::alloc::AllocError;
use std::io;
use std::io::{ErrorKind, Read};

/// Receives a text in pieces.
///
/// A contract sees which texts of fewer than 2^64 bytes it has received.
pub trait PieceTaker {
    /// Whether it has received this text.
    ghost has_taken: { Self → List ℕ → Type 0 };

    /// Receives the next piece of the text. If memory runs out, it counts as having received no text.
    fn take_piece(&mut self, piece: &[u8]) -> Result<(), AllocError>
        ensures { OnOk result ((text : List ℕ) → length (text ++ piece.now) < 2 ^ 64
            → has_taken self.old text → has_taken self.new (text ++ piece.now)) };
}

/// The maximum length of a piece in bytes.
pub const PIECE_LIMIT: usize = 65_536;

/// The maximum number of reads that `hand_over` makes. With pieces of full size, they cover about 281 terabytes.
pub const PIECES_LIMIT: u64 = 4_294_967_296;

/// Passes all remaining bytes of a reader to a taker that has received nothing yet. If the end of the reader is not
/// reached after 4,294,967,296 reads, the error is `FileTooLarge`.
pub fn hand_over<R: Read, P: PieceTaker>(from: &mut R, to: &mut P) -> io::Result<()>
    ensures { OnOk result ((text : List ℕ) × (length text < 2 ^ 64)
        × IfSome (R.remaining from.old) (λ left. text ≡ left)
        × (P.has_taken to.old [] → P.has_taken to.new text)) }
{
    let mut piece = [0; PIECE_LIMIT];
    for _ in 0..PIECES_LIMIT {
        let taken = from.read(&mut piece)?;
        if taken == 0 {
            return Ok(());
        }
        to.take_piece(&piece[..taken])?;
    }
    Err(io::Error::from(ErrorKind::FileTooLarge))
}

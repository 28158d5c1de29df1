//! Splits the bytes of a channel into blocks.

ghost use Rattle.std.specs.Prelude.{◌≡◌, ◌↔◌, ◌+◌, ◌-◌, ◌<◌, ◌≤◌, ◌++◌, ℕ, List, [], length, take, min, IsSome};
ghost use Rattle.std.specs.Option.{option_to_list};

use crate::frames::{BLOCK, FRONT, decode_front};
use crate::requests::HeardRequest;
use arrayvec::ArrayVec;
use std::alloc::AllocError;
use std::marker::Model;

/// Reads requests from a stream of bytes that arrives in arbitrary pieces. It keeps only the first sixteen bytes of an
/// unfinished block, and the number of bytes received.
#[derive(Drop)]
pub struct Blocks {
    front: ArrayVec<u8, FRONT>,
    count: usize,
}

impl Model for Blocks {
    ghost use Rattle.std.specs.Prelude.{◌≡◌, ◌<◌, length, min};
    ghost use Rattle.initctl_frame.specs.declared.frames.TheConstants.{BLOCK, FRONT};
    ghost use Rattle.initctl_frame.specs.Blocks.{PartialBlock};

    ghost Value = { PartialBlock };

    ghost view = { λ blocks. record { count = blocks.count; front = blocks.front.items } };

    ghost invariant = { λ blocks. (blocks.count < BLOCK)
        × (length blocks.front.items ≡ min blocks.count FRONT) };
}

impl Blocks {
    ghost use Rattle.initctl_frame.specs.Blocks.{ReaderAfter, requests_in_blocks, remainder_of};

    /// Creates a reader at the start of a stream.
    pub fn new() -> Blocks
        ensures { ReaderAfter result [] }
    {
        Blocks {
            front: ArrayVec::new(),
            count: 0,
        }
    }

    /// Takes the bytes of the piece up to the end of the current block, or the whole piece if it is shorter. Returns
    /// the number of bytes taken and, if the block is now complete, its request.
    pub fn feed(&mut self, piece: &[u8]) -> (usize, Option<HeardRequest>)
        // Bytes are taken up to the end of the block or of the piece, so a piece that is not empty makes progress.
        ensures taken { result.0 ≡ min (length piece.now) (BLOCK - self.old.count) }
        ensures progress { 0 < length piece.now → 0 < result.0 }

        // A request is returned if and only if the block is complete; it is the next request of all bytes so far.
        ensures full { IsSome result.1 ↔ (BLOCK ≤ self.old.count + length piece.now) }
        ensures stands { (bytes : List ℕ) → ReaderAfter self.old bytes
            → ReaderAfter self.new (bytes ++ take result.0 piece.now) }
        ensures got { (bytes : List ℕ) → ReaderAfter self.old bytes
            → requests_in_blocks (bytes ++ take result.0 piece.now)
            ≡ requests_in_blocks bytes ++ option_to_list result.1 }
    {
        let taken = piece.len().min(BLOCK - self.count);
        let kept = taken.min(FRONT - self.front.len());
        if self.front.try_extend_from_slice(&piece[..kept]).is_err() {
            unreachable!()
        }
        if self.count + taken < BLOCK {
            self.count += taken;
            return (taken, None);
        }
        let got = decode_front(self.front.as_slice());
        self.front.clear();
        self.count = 0;
        (taken, Some(got))
    }

    /// Returns how many bytes of the unfinished block were received, 0 to 383.
    pub fn rest(&self) -> usize
        ensures count { result ≡ self.now.count }
        ensures partial { result < BLOCK }
        ensures over { (bytes : List ℕ) → ReaderAfter self.now bytes
            → result ≡ length (remainder_of bytes) }
    {
        self.count
    }
}

impl Clone for Blocks {
    ghost use Rattle.std.specs.Prelude.{◌≡◌, ⊤};

    ghost is_clone = { λ blocks copy. copy ≡ blocks };

    ghost is_infallible = { λ blocks. ⊤ };

    fn clone(&self) -> Result<Blocks, AllocError> {
        let mut front = ArrayVec::new();
        if front.try_extend_from_slice(self.front.as_slice()).is_err() {
            unreachable!()
        }
        Ok(Blocks {
            front,
            count: self.count,
        })
    }
}

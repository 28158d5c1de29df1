//! The relation between a byte stream and its blocks.

ghost use Rattle.std.specs.Prelude.{◌≡◌, ◌++◌, ◌<◌, ℕ, List, All, length, flat_map};
ghost use Rattle.initctl_frame.specs.declared.frames.TheConstants.{BLOCK};
ghost use Rattle.initctl_frame.specs.Blocks.{blocks_of, remainder_of};

/// States that a byte list consists of its blocks and a remainder: each block has 384 bytes, the remainder has fewer,
/// and joined together they are the list. The function does nothing: its contract is the law.
pub fn blocks_are_parts()
    ensures whole { (bytes : List ℕ) → All (λ block. length block ≡ BLOCK) (blocks_of bytes) }
    ensures partial { (bytes : List ℕ) → length (remainder_of bytes) < BLOCK }
    ensures joined { (bytes : List ℕ)
        → flat_map (λ block. block) (blocks_of bytes) ++ remainder_of bytes ≡ bytes }
{}

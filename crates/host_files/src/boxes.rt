//! Moves values to the heap, so that they are one word to their owners.
//!
//! The prover needs minutes for a function that has a channel or a bell in its stack frame, so such values are created
//! here.

ghost use Rattle.std.specs.Prelude.{◌≡◌, IfOk};

use std::alloc::{AllocError, Allocator};

/// Moves the value to the heap.
pub fn boxed<T: Drop, A: Allocator>(alloc: A, value: T) -> Result<Box<T, A>, AllocError>
    ensures { IfOk result (λ made. made.value ≡ value) }
{
    Ok(Box::new(alloc, value)?)
}

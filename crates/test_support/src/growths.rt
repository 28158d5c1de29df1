//! Makes allocations fail one after another, on heaps of increasing size.

use init_words::Memory;
use linked_list_allocator::LocalHeap;
use std::alloc::Global;

/// The outcome of a call on a heap.
#[derive(Clone, Copy, PartialEq, Eq)]
pub enum Outcome {
    /// There was no room to create its arguments.
    Unmade,
    Refused,
    Done,
}

impl Outcome {
    /// Returns the outcome of a call that succeeded or failed.
    pub fn of(is_done: bool) -> Outcome {
        if is_done {
            Outcome::Done
        } else {
            Outcome::Refused
        }
    }

    /// Returns the outcome of a call that reports whether its result is right.
    pub fn of_answer(answer: Result<bool, Memory>) -> Option<Outcome> {
        match answer {
            Ok(true) => Some(Outcome::Done),
            Ok(false) => None,
            Err(Memory) => Some(Outcome::Refused),
        }
    }
}

/// Returns the number of heaps on which a call fails before the first on which it succeeds. The heaps grow in steps
/// smaller than the smallest allocation. Returns `None` if there is any other outcome.
pub fn refusals<F: Fn(Global, &LocalHeap) -> Option<Outcome>>(
    global: Global,
    call: F,
) -> Option<usize>
    requires { F.IsAlwaysCallable call }
{
    let mut refused = 0usize;
    for step in 0..8192usize {
        let heap = LocalHeap::new(global, 16 * step).ok()?;
        match call(global, &heap)? {
            Outcome::Unmade => {}
            Outcome::Refused => refused = refused.wrapping_add(1),
            Outcome::Done => return Some(refused),
        }
    }
    None
}

/// Returns the first row whose call does not fail on more heaps than the number in the row before it succeeds.
pub fn first_unrefused<'r, F: Fn(Global, &LocalHeap, &str) -> Option<Outcome>>(
    global: Global,
    rows: &[(&'r str, usize)],
    call: F,
) -> Option<&'r str>
    requires { F.IsAlwaysCallable call }
{
    for (what, least) in rows {
        if refusals(global, |global, heap| call(global, heap, what)) <= Some(*least) {
            return Some(what);
        }
    }
    None
}
